// A sheet settled: a run from its coordinates, each question answered with the sheet's rows at the asked point.
ghost use Rattle.std.specs.Prelude.{◌+◌, ◌*◌, ◌≤◌, ◌≡◌, pos, length, IfOk};
ghost use Rattle.interval.specs.Result.{ok};
ghost use Rattle.interval.specs.Scalar.{from_i64};
ghost use Rattle.run.specs.Calls.{after_call, begin_of};
ghost use Rattle.run.specs.Limits.{AREA};
ghost use Rattle.run.specs.Questions.{is_question};
ghost use Rattle.sheet.specs.Printing.{SLOT, padded};
ghost use Rattle.sheet.specs.Settling.{is_outside, answers_to, most_replies, point_at, sizes_of, printed_of};
ghost use Rattle.sheet.specs.Settling.{printed_sheet, after_text, number_in, settle_text_of};
ghost use Rattle.sheet.specs.Sheet.{most_points};
ghost use Rattle.sheet.specs.program.Sheet.{coordinates_in, sheet_by, whole_sheet_in};
ghost use Rattle.sheet.specs.program.Settling.{InRange, Settles, reply_to};

use crate::fault::Fault;
use crate::printing::{SLOT, print_error, print_finish};
use crate::reader::read;
use crate::rows::rows_at;
use crate::sheet::{Points, Sheet};
use interval::Scalar;
use linear::{clear, put};
use run::{AREA, Event, Refusal, Returned, State};

// No run has more: 5,500 for each of 200 iterations, and the start.
const MOST_REPLIES: usize = 1100001;

fn is_question(e: Event) -> bool
    ensures { result ≡ is_question e }
{
    matches!(e, Event::Question(_, _, _))
}

// Refused for an end outside the domain.
fn is_outside(e: Event) -> bool
    ensures { result ≡ is_outside e }
{
    matches!(e, Event::Refused(Refusal::OutsideDomain))
}

// The coordinates as a point.
fn point_at(points: Points, out: &mut [f64])
    requires { (points.count ≤ most_points) × (length (coordinates_in points) ≡ 2 * points.count) ×
        (length out.old ≡ 2 * (2 * points.count)) }
    ensures { out.new ≡ point_at (coordinates_in points) }
{
    for i in 0..2 * points.count {
        put(out, i, Scalar::from_i64(points.coordinates[i]));
    }
}

// Replies to the open question with the rows at the asked point, or with none where they are outside the domain.
fn answer(sheet: Sheet, st: State, aims: &[f64], rows: &mut [f64], area: &mut [f64]) -> Returned
    requires { InRange sheet (length rows.old) }
    ensures { after_call result area.new ≡ reply_to (sheet_by sheet) aims.now st
        area.old }
{
    let n = 2 * sheet.points.count;
    let rules = sheet.rules;
    rows_at(n, rules, run::point(st, area), aims, rows);
    let out = run::reply(st, area, sheet.rules.count, rows);
    let event = out.event;
    if is_outside(event) {
        return run::reply_none(st, area);
    }
    out
}

// Replies until no question is open.
fn answers(
    sheet: Sheet,
    first: Returned,
    aims: &[f64],
    rows: &mut [f64],
    area: &mut [f64],
) -> Returned
    requires { InRange sheet (length rows.old) }
    ensures { after_call result area.new
        ≡ answers_to most_replies (sheet_by sheet) aims.now (after_call first area.old) }
{
    let mut out = first;
    for _ in 0..MOST_REPLIES {
        let event = out.event;
        let st = out.state;
        if !is_question(event) {
            return out;
        }
        out = answer(sheet, st, aims, rows, area);
    }
    out
}

// A run of the sheet, from a start, aiming at a point.
fn settle_from(
    sheet: Sheet,
    start: &[f64],
    aims: &[f64],
    rows: &mut [f64],
    area: &mut [f64],
) -> Returned
    requires { InRange sheet (length rows.old) }
    ensures { after_call result area.new
        ≡ answers_to most_replies (sheet_by sheet) aims.now
        (begin_of (sizes_of (sheet_by sheet)) start.now (from_i64 (pos sheet.reach)) area.old) }
{
    let n = 2 * sheet.points.count;
    let reach = Scalar::from_i64(sheet.reach as i64);
    let first = run::begin(n, n, sheet.limit, start, reach, area);
    answers(sheet, first, aims, rows, area)
}

// Prints how a run ended, with the point that it left.
fn print_returned(out: Returned, area: &[f64], slot: &mut [u8])
    requires { length slot.old ≡ SLOT }
    ensures { slot.new ≡ padded (printed_of (after_call out area.now)) }
{
    let event = out.event;
    let st = out.state;
    match event {
        Event::Question(_, _, _) => {
            print_error(slot, 0);
        }
        Event::Finish(stop, iterations, turned, _) => {
            print_finish(slot, stop, iterations, turned, run::point(st, area));
        }
        Event::Refused(refusal) => {
            print_error(slot, usize::from(refusal));
        }
    }
}

// With slices of the sheet's lengths.
fn settle_cut(sheet: Sheet, start: &mut [f64], rows: &mut [f64], area: &mut [f64], slot: &mut [u8])
    requires { InRange sheet (length rows.old) × (length start.old ≡ 2 * (2 * sheet.points.count)) ×
        (length slot.old ≡ SLOT) × (length area.old ≡ AREA) }
    ensures { slot.new ≡ padded (printed_sheet (ok (sheet_by sheet))) }
{
    let points = sheet.points;
    point_at(points, start);
    let out = settle_from(sheet, start, start, rows, area);
    print_returned(out, area, slot);
}

// With slices that are long enough for every sheet.
fn settle_in(sheet: Sheet, start: &mut [f64], rows: &mut [f64], area: &mut [f64], slot: &mut [u8])
    requires { Settles sheet × (length start.old ≡ 24) × (length rows.old ≡ 936) ×
        (length slot.old ≡ SLOT) × (length area.old ≡ AREA) }
    ensures { slot.new ≡ padded (printed_sheet (ok (sheet_by sheet))) }
{
    let n = 2 * sheet.points.count;
    let count = 2 * ((sheet.rules.count + n) * (n + 1));
    settle_cut(sheet, &mut start[..2 * n], &mut rows[..count], area, slot);
}

fn settle_sheet(sheet: Sheet, area: &mut [f64], slot: &mut [u8])
    requires { Settles sheet × (length slot.old ≡ SLOT) × (length area.old ≡ AREA) }
    ensures { slot.new ≡ padded (printed_sheet (ok (sheet_by sheet))) }
{
    let mut start = [0.0; 24];
    let mut rows = [0.0; 936];
    settle_in(sheet, &mut start, &mut rows, area, slot);
}

// Prints what was found of a text: its sheet, settled, or the number of its fault.
fn print_found(found: Result<Sheet, Fault>, area: &mut [f64], slot: &mut [u8])
    requires { IfOk found Settles × (length slot.old ≡ SLOT) × (length area.old ≡ AREA) }
    ensures { slot.new ≡ padded (printed_sheet (whole_sheet_in found)) }
{
    match found {
        Ok(sheet) => settle_sheet(sheet, area, slot),
        Err(fault) => {
            print_error(slot, fault.number());
        }
    }
}

// Reads a text, settles it and prints into the slot what the program prints, then zeros. The area is +0 afterwards. An
// area or a slot of another length is refused, with nothing written.
pub fn settle_text(text: &[u8], area: &mut [f64], slot: &mut [u8]) -> Result<(), Fault>
    ensures { after_text (number_in result) area.new slot.new
        ≡ settle_text_of text.now area.old slot.old }
{
    if area.len() != AREA {
        return Err(Fault::WrongLength);
    }
    if slot.len() != SLOT {
        return Err(Fault::WrongLength);
    }
    print_found(read(text), area, slot);
    clear(area);
    Ok(())
}
