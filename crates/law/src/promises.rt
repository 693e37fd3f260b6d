// What is proved of the definitions. It stands on contracts, since the check looks for no theorem outside of what they name.
ghost use Rattle.std.specs.Prelude.{◌≡◌, Ok, [], ◌∷◌};
ghost use Rattle.law.specs.WorkedExamples.{WorkedExamples, Exhibits, write_of, write_then_read_of, registers_at};

use transfer::{Address, Draft, Refusal, Transfer};

/// The worked examples of the refusals, of a transfer carried alone, letter by letter, and of the turn book, as facts about
/// the definitions of which the law over every use speaks. It does nothing.
pub fn worked_examples()
    ensures { WorkedExamples }
{}

/// The transfers of the example in which a repeated start wins over a 1, made by the calls of a draft: a write of 03 and then a
/// read of one byte, and a write of 03 and 80. No call is refused.
pub fn restart_over_one() -> Result<(Transfer, Transfer), Refusal>
    ensures { (f : Transfer) × (g : Transfer) × (result ≡ Ok (f, g)) ×
        Exhibits (write_then_read_of (3 ∷ []) 1) (write_of (3 ∷ 128 ∷ [])) (0 ∷ []) (registers_at 4) f g }
{
    let registers = Address::new(0x50)?;
    let mut restarted = Draft::new(registers);
    restarted.write(&[0x03])?;
    restarted.second_leg(registers)?;
    restarted.read(1)?;
    let mut high = Draft::new(registers);
    high.write(&[0x03, 0x80])?;
    Ok((restarted.seal(), high.seal()))
}
