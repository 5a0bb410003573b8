// A reading in the array that a caller in C lends: its slots are words of 64 bits.
ghost use Rattle.std.specs.Prelude.{◌≡◌};
ghost use Rattle.surface_answers.specs.Answers.{outcome, Every};
ghost use Rattle.light_sheet_c.specs.Values.{IsNumber, bits, over};

use surface_answers::Answer;

// Stores the bits of an answer's values in the first slots, and gives its number. No value is a NaN, of which `f64::to_bits` is undefined.
pub fn store(answer: Answer, values: &mut [u64; 3]) -> u32
    requires { Every IsNumber (outcome answer).values }
    ensures answer { result ≡ (outcome answer).number }
    ensures values { values.new ≡ over (bits (outcome answer).values) values.old }
{
    match answer {
        Answer::Level(level) => {
            values[0] = f64::to_bits(level);
            0
        }
        Answer::Tilt(x, y) => {
            values[0] = f64::to_bits(x);
            values[1] = f64::to_bits(y);
            0
        }
        Answer::Bend(xx, xy, yy) => {
            values[0] = f64::to_bits(xx);
            values[1] = f64::to_bits(xy);
            values[2] = f64::to_bits(yy);
            0
        }
        Answer::Refused(number) => number,
    }
}
