// What a reading answers: 01's three readings as whole numbers, each with its divisor, and the answer with the quotients as 64-bit floats.
#![tactic(auto)]

pub mod kind;
pub mod theorems;

ghost use Rattle.std.specs.Prelude.{◌≡◌, [], ◌∷◌};
ghost use Rattle.surface_answers.specs.Answers.{outcome, answered, FitsFloat};

// One of three readings, in steps, in steps per pixel and in steps per pixel per pixel, or the number of a refusal. 01 names this enum, so it is no Result.
#[derive(Clone, Copy)]
pub enum Answer {
    Level(f64),
    Tilt(f64, f64),
    Bend(f64, f64, f64),
    Refused(u32),
}

// Three types, each with its constructor and its divisor, as 01 names them. That a number fits a float is asked by `answer`: the constructors take any.
// A level, in grains.
#[derive(Clone, Copy)]
pub struct LevelReading {
    pub height: i64,
}

// A tilt, in grains per pixel.
#[derive(Clone, Copy)]
pub struct TiltReading {
    pub x: i64,
    pub y: i64,
}

// A bend, in 1/64 grain per pixel per pixel.
#[derive(Clone, Copy)]
pub struct BendReading {
    pub xx: i64,
    pub xy: i64,
    pub yy: i64,
}

impl LevelReading {
    pub const DIVISOR: f64 = 64.0;

    pub fn new(height: i64) -> Self
        ensures { result.height ≡ height }
    {
        Self { height }
    }

    pub fn answer(self) -> Answer
        requires { FitsFloat self.height }
        ensures { outcome result ≡ answered 0 (self.height ∷ []) }
    {
        Answer::Level(self.height as f64 / Self::DIVISOR)
    }
}

impl TiltReading {
    pub const DIVISOR: f64 = 64.0;

    pub fn new(x: i64, y: i64) -> Self
        ensures { (result.x ≡ x) × (result.y ≡ y) }
    {
        Self { x, y }
    }

    pub fn answer(self) -> Answer
        requires { FitsFloat self.x × FitsFloat self.y }
        ensures { outcome result ≡ answered 1 (self.x ∷ self.y ∷ []) }
    {
        Answer::Tilt(self.x as f64 / Self::DIVISOR, self.y as f64 / Self::DIVISOR)
    }
}

impl BendReading {
    pub const DIVISOR: f64 = 4096.0;

    pub fn new(xx: i64, xy: i64, yy: i64) -> Self
        ensures { (result.xx ≡ xx) × (result.xy ≡ xy) × (result.yy ≡ yy) }
    {
        Self { xx, xy, yy }
    }

    pub fn answer(self) -> Answer
        requires { FitsFloat self.xx × FitsFloat self.xy × FitsFloat self.yy }
        ensures { outcome result ≡ answered 2 (self.xx ∷ self.xy ∷ self.yy ∷ []) }
    {
        Answer::Bend(
            self.xx as f64 / Self::DIVISOR,
            self.xy as f64 / Self::DIVISOR,
            self.yy as f64 / Self::DIVISOR,
        )
    }
}
