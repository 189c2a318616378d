// Sheets for C and Rust: a text is read, settled and printed by one call, or spelled in its one way by another. A slice
// is passed as its pointer and count. Each takes every text and every length, and equals the definition of the call
// beneath it.
ghost use Rattle.std.specs.Prelude.{◌≡◌};
ghost use Rattle.sheet.specs.Settling.{after_text, settle_text_of};
ghost use Rattle.sheet.specs.Spelling.{spell_text_of};
ghost use Rattle.yadzvego.specs.SpellResult.{spell_result_of};

// Number 0 and how many bytes were written, or the number of the refusal and 0.
#[repr(C)]
#[derive(Clone, Copy)]
pub struct SpellResult {
    pub number: usize,
    pub length: usize,
}

// Settles a sheet: the slot has what the program prints for the text, then zeros, and the area is +0. Returns 0; or 2,
// with nothing written, for an area or a slot of another length.
pub fn yadzvego_settle_text(text: &[u8], area: &mut [f64], slot: &mut [u8]) -> usize
    ensures { after_text result area.new slot.new
        ≡ settle_text_of text.now area.old slot.old }
{
    match sheet::settle_text(text, area, slot) {
        Ok(()) => 0,
        Err(fault) => fault.number(),
    }
}

// Writes the one spelling of a sheet into 4,096 bytes, then zeros. Bytes of another length are refused by 2, then a
// text that is no sheet by the number of its error, both with nothing written.
pub fn yadzvego_spell_text(text: &[u8], out: &mut [u8]) -> SpellResult
    ensures value { result ≡ spell_result_of (spell_text_of text.now out.old).returned }
    ensures out_after { out.new ≡ (spell_text_of text.now out.old).out }
{
    match sheet::spell_text(text, out) {
        Ok(length) => SpellResult { number: 0, length },
        Err(fault) => SpellResult {
            number: fault.number(),
            length: 0,
        },
    }
}
