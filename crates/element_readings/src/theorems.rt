// Theorems that belong to no function. Each is the contract of one that returns 0, so that the gate asks for its proof.
ghost use Rattle.std.specs.Prelude.{◌≡◌};
ghost use Rattle.element_readings.specs.Reading.{HalfUnit};
ghost use Rattle.element_readings.specs.Bounds.{Bounds};
ghost use Rattle.element_readings.specs.WeightSums.{WeightSums};
ghost use Rattle.element_readings.specs.CornerWeights.{CornerWeights};
ghost use Rattle.element_readings.specs.AtCorners.{AtCorners};

pub fn half_unit() -> u64
    ensures { (result ≡ 0) × HalfUnit }
{
    0
}

pub fn bounds() -> u64
    ensures { (result ≡ 0) × Bounds }
{
    0
}

pub fn weight_sums() -> u64
    ensures { (result ≡ 0) × WeightSums }
{
    0
}

pub fn corner_weights() -> u64
    ensures { (result ≡ 0) × CornerWeights }
{
    0
}

pub fn at_corners() -> u64
    ensures { (result ≡ 0) × AtCorners }
{
    0
}
