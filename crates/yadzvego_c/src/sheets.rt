// The sheets of the archive: a text is read, settled and printed by one call, or spelled in its one way by another.
ghost use Rattle.std.specs.Prelude.{◌≡◌};
ghost use Rattle.sheet.specs.Settling.{after_text, settle_text_of};
ghost use Rattle.sheet.specs.Spelling.{spell_text_of};
ghost use Rattle.yadzvego.specs.SpellResult.{spell_result_of};

use yadzvego::sheets;
use yadzvego::sheets::SpellResult;

// Settles a sheet: the slot has what the program prints for the text, then zeros, and the area is +0. Returns 0; or 2,
// with nothing written, for an area or a slot of another length.
#[unsafe(no_mangle)]
pub extern "C" fn yadzvego_settle_text(text: &[u8], area: &mut [f64], slot: &mut [u8]) -> usize
    ensures { after_text result area.new slot.new
        ≡ settle_text_of text.now area.old slot.old }
{
    sheets::yadzvego_settle_text(text, area, slot)
}

// Writes the one spelling of a sheet into 4,096 bytes, then zeros. Bytes of another length are refused by 2, then a
// text that is no sheet by the number of its error, both with nothing written.
#[unsafe(no_mangle)]
pub extern "C" fn yadzvego_spell_text(text: &[u8], out: &mut [u8]) -> SpellResult
    ensures value { result ≡ spell_result_of (spell_text_of text.now out.old).returned }
    ensures out_after { out.new ≡ (spell_text_of text.now out.old).out }
{
    sheets::yadzvego_spell_text(text, out)
}
