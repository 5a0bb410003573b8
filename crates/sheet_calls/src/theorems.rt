// Theorems that belong to no function. Each is the contract of one that returns 0, so that the gate asks for its proof.
ghost use Rattle.std.specs.Prelude.{◌≡◌, List, ℕ};
ghost use Rattle.sheet_calls.specs.Rules.{RuleLaws};
ghost use Rattle.sheet_calls.specs.Refusals.{LookupInput, SettingInput, ReadingInput, RunInput, CallNumbers};
ghost use Rattle.sheet_calls.specs.WellFormed.{ConditionLaws, AcceptedLaws};
ghost use Rattle.sheet_calls.specs.NodeLaws.{LookupLaws, SettingLaws};
ghost use Rattle.sheet_calls.specs.Examples.{Examples};

// One proof for rules on any input; a contract can speak of given types only, here of each call's input.
pub fn rule_laws() -> u64
    ensures { (result ≡ 0) × RuleLaws (List ℕ) × RuleLaws LookupInput × RuleLaws SettingInput × RuleLaws ReadingInput × RuleLaws RunInput }
{
    0
}

pub fn call_numbers() -> u64
    ensures { (result ≡ 0) × CallNumbers }
{
    0
}

pub fn condition_laws() -> u64
    ensures { (result ≡ 0) × ConditionLaws }
{
    0
}

pub fn accepted_laws() -> u64
    ensures { (result ≡ 0) × AcceptedLaws }
{
    0
}

pub fn lookup_laws() -> u64
    ensures { (result ≡ 0) × LookupLaws }
{
    0
}

pub fn setting_laws() -> u64
    ensures { (result ≡ 0) × SettingLaws }
{
    0
}

pub fn examples() -> u64
    ensures { (result ≡ 0) × Examples }
{
    0
}
