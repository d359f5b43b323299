// The corrected reference, from `set_ppm` of src/tuners/r82xx.rs and `corrected_xtal_hz` of src/lib.rs.
// Document 01, "The record": "nominal + nominal·ppm / 1,000,000, the quotient cut toward zero"; refusal 4 outside 1..4,294,967,295.

#![tactic(auto)]

ghost use Rattle.std.specs.Prelude.{◌≡◌};
ghost use Rattle.reference.specs.Correct.{accept_of, corrected_of};

fn accept(value: i64) -> Option<u32>
    ensures { result ≡ accept_of value }
{
    if value < 1 {
        return None;
    }
    u32::try_from(value).ok()
}

// None where it is out of its range. The quotient of signed numbers is cut toward zero.
pub fn correct(nominal: u32, ppm: i32) -> Option<u32>
    ensures { result ≡ corrected_of nominal ppm }
{
    let wide = i64::from(nominal);
    accept(wide + wide * i64::from(ppm) / 1_000_000)
}
