// Theorems that belong to no function. Each is the contract of one that returns 0, so that the gate asks for its proof.
ghost use Rattle.std.specs.Prelude.{◌≡◌};
ghost use Rattle.surface_answers.specs.AnswerLaws.{AnswerLaws, QuotientLaws};

pub fn answer_laws() -> u64
    ensures { (result ≡ 0) × AnswerLaws }
{
    0
}

pub fn quotient_laws() -> u64
    ensures { (result ≡ 0) × QuotientLaws }
{
    0
}
