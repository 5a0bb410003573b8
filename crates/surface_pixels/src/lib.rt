// Reading at a pixel: the level, the tilt or the bend, or the number of a refusal.
#![tactic(auto)]

ghost use Rattle.std.specs.Prelude.{◌≡◌, IfOk, [], ◌∷◌};
ghost use Rattle.element_readings.specs.Reading.{level_of, tilt_x_of, tilt_y_of, bend_xx_of, bend_xy_of, bend_yy_of};
ghost use Rattle.sheet_calls.specs.Refusals.{reading_refusal};
ghost use Rattle.sheet_calls.specs.Refused.{refusal_number};
ghost use Rattle.surface_answers.specs.Answers.{outcome, answered, FitsFloat};
ghost use Rattle.surface_answers.specs.Kinds.{kind_number};
ghost use Rattle.surface_of_sheet.specs.Place.{place};
ghost use Rattle.surface_of_sheet.specs.Surface.{level, tilt_x, tilt_y};
ghost use Rattle.surface_of_sheet.specs.Read.{numbers, read};
ghost use Rattle.surface_pixels.specs.Located.{located, on};

use element_cell::{Coefficients, Pixel};
use sheet_calls::refusal::Refusal;
use surface_answers::kind::Kind;
use surface_answers::{Answer, BendReading, LevelReading, TiltReading};
use surface_places::spot::Spot;

// The cubic that a pixel is read from, by its doubled coefficients, and the pixel in its cell.
#[derive(Clone, Copy)]
struct LocatedCubic {
    coefficients: Coefficients,
    pixel: Pixel,
}

// What the light board asks: kind 0 is the level, 1 the tilt, 2 the bend. It comes as a number, since any other is refused.
pub fn read(sheet: &[u8], x: u32, y: u32, kind: u32) -> Answer
    ensures { outcome result ≡ read sheet.now x y kind }
{
    match reading(sheet, x, y, kind) {
        Ok(answer) => answer,
        Err(refusal) => Answer::Refused(refusal.number()),
    }
}

// The level at a pixel of the mesh, in whole grains.
pub fn level(spot: Spot) -> i64
    ensures { result ≡ level spot.entry.sheet.bytes.now spot.entry.x spot.entry.y }
{
    let cubic = LocatedCubic::of(spot);
    element_evaluation::level_of(cubic.coefficients, cubic.pixel)
}

// The level and the tilt along x and y at a pixel of the mesh, as whole numbers.
pub fn level_and_tilt(spot: Spot) -> [i64; 3]
    ensures { result ≡ level spot.entry.sheet.bytes.now spot.entry.x spot.entry.y ∷ tilt_x spot.entry.sheet.bytes.now spot.entry.x spot.entry.y ∷ tilt_y spot.entry.sheet.bytes.now spot.entry.x spot.entry.y ∷ [] }
{
    let cubic = LocatedCubic::of(spot);
    let k = cubic.coefficients;
    let p = cubic.pixel;
    [
        element_evaluation::level_of(k, p),
        element_evaluation::tilt_x_of(k, p),
        element_evaluation::tilt_y_of(k, p),
    ]
}

// A reading, or what refuses it: the pixel before the kind.
fn reading(sheet: &[u8], x: u32, y: u32, kind: u32) -> Result<Answer, Refusal>
    ensures refusal { refusal_number result ≡ reading_refusal sheet.now x y kind }
    ensures answer { IfOk result (λ a. outcome a ≡ answered kind (numbers sheet.now x y kind)) }
{
    let spot = Spot::new(sheet, x, y)?;
    let kind = Kind::try_from(kind)?;
    Ok(answer(spot, kind))
}

// A reading that is not refused.
fn answer(spot: Spot, kind: Kind) -> Answer
    ensures { outcome result ≡ answered (kind_number kind) (numbers spot.entry.sheet.bytes.now spot.entry.x spot.entry.y (kind_number kind)) }
{
    let cubic = LocatedCubic::of(spot);
    match kind {
        Kind::Level => cubic.level_answer(),
        Kind::Tilt => cubic.tilt_answer(),
        Kind::Bend => cubic.bend_answer(),
    }
}

impl LocatedCubic {
    // The cubic on the pixel's cell and piece. In line for the same reason as `Spot::place`.
    #[inline(always)]
    fn of(spot: Spot) -> LocatedCubic
        ensures { result ≡ located spot.entry.sheet.bytes.now (place spot.entry.sheet.bytes.now spot.entry.x spot.entry.y) }
    {
        let place = spot.place();
        let pixel = place.pixel;
        let n = surface_cells::corner_numbers(
            spot.sheet,
            place.column,
            place.row,
            pixel.width,
            pixel.height,
        );
        LocatedCubic {
            coefficients: element_pieces::coefficients(n, place.piece),
            pixel,
        }
    }

    // What fits a float is known of the sheet, not of the cubic, so each answer asks it.
    fn level_answer(self) -> Answer
        requires { FitsFloat (on level_of self) }
        ensures { outcome result ≡ answered 0 (on level_of self ∷ []) }
    {
        let k = self.coefficients;
        let p = self.pixel;
        let reading = LevelReading::new(element_evaluation::level_of(k, p));
        reading.answer()
    }

    // The tilt along x and y.
    fn tilt_answer(self) -> Answer
        requires { FitsFloat (on tilt_x_of self) × FitsFloat (on tilt_y_of self) }
        ensures { outcome result ≡ answered 1 (on tilt_x_of self ∷ on tilt_y_of self ∷ []) }
    {
        let k = self.coefficients;
        let p = self.pixel;
        let reading = TiltReading::new(
            element_evaluation::tilt_x_of(k, p),
            element_evaluation::tilt_y_of(k, p),
        );
        reading.answer()
    }

    // The bend along x, mixed and along y.
    fn bend_answer(self) -> Answer
        requires { FitsFloat (on bend_xx_of self) × FitsFloat (on bend_xy_of self) × FitsFloat (on bend_yy_of self) }
        ensures { outcome result ≡ answered 2 (on bend_xx_of self ∷ on bend_xy_of self ∷ on bend_yy_of self ∷ []) }
    {
        let k = self.coefficients;
        let p = self.pixel;
        let reading = BendReading::new(
            element_evaluation::bend_xx_of(k, p),
            element_evaluation::bend_xy_of(k, p),
            element_evaluation::bend_yy_of(k, p),
        );
        reading.answer()
    }
}
