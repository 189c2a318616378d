// The reader of a sheet: its lines in their order, and the first fault in the first line that has one.
ghost use Rattle.std.specs.Prelude.{◌≤◌, ◌≡◌, [], drop, IfOk};
ghost use Rattle.linear.specs.Results.{bind};
ghost use Rattle.sheet.specs.Rule.{level};
ghost use Rattle.sheet.specs.Sheet.{most_points, most_rules, most_length, natural_of, is_near, point_of, points_from};
ghost use Rattle.sheet.specs.Sheet.{is_present, are_two, span_of, aligned_of, rule_of, rules_from};
ghost use Rattle.sheet.specs.Sheet.{all_points_of, all_rules_of, behind_points_of, sheet_of, read_of};
ghost use Rattle.sheet.specs.program.Settling.{Settles};
ghost use Rattle.sheet.specs.program.Sheet.{points_in, aligned_by, rules_in, coordinates_in, sheet_in, whole_sheet_in};
ghost use Rattle.sheet.specs.program.Text.{read_in};

use crate::fault::Fault;
use crate::numbers::{Number, is_between, is_natural, one_field, three_fields, two_fields, whole};
use crate::sheet::{Kind, Points, Rule, Rules, Sheet};
use crate::text::{Read, behind_key, byte_at};

pub const MOST_BYTES: usize = 4096;

pub const MOST_POINTS: usize = 6;

pub const MOST_ITERATIONS: usize = 200;

pub const MOST_RULES: usize = 12;

// Of a coordinate's size, a reach and a length.
pub const MOST_LENGTH: usize = 10000000;

// A key and a number from least to most.
fn natural(text: &[u8], at: usize, key: &[u8], least: usize, most: usize) -> Read<usize>
    requires { most ≤ most_length }
    ensures { read_in text.now result
        ≡ natural_of key.now least most (drop at text.now) }
{
    let fields = behind_key(text, at, key)?;
    let (x, next) = one_field(text, fields)?;
    if is_between(least, most, x) {
        return Ok((x.size, next));
    }
    Err(Fault::OutOfRange)
}

fn is_near(x: Number) -> bool
    ensures { result ≡ is_near x }
{
    x.size <= MOST_LENGTH
}

// A point, at=X,Y.
fn point(text: &[u8], at: usize) -> Read<(i64, i64)>
    ensures { read_in text.now result ≡ point_of (drop at text.now) }
{
    let fields = behind_key(text, at, b"at=")?;
    let ((x, y), next) = two_fields(text, fields)?;
    if is_near(x) && is_near(y) {
        return Ok(((whole(x), whole(y)), next));
    }
    Err(Fault::OutOfRange)
}

// So many points.
fn points(text: &[u8], at: usize, count: usize) -> Read<Points>
    requires { count ≤ most_points }
    ensures { (points_in text.now result ≡ points_from count [] (drop at text.now)) ×
        IfOk result (λ r. r.0.count ≤ most_points) }
{
    let mut coordinates = [0; 12];
    let mut place = at;
    for i in 0..count {
        let ((x, y), next) = point(text, place)?;
        coordinates[2 * i] = x;
        coordinates[2 * i + 1] = y;
        place = next;
    }
    Ok((Points { count, coordinates }, place))
}

// ---- rules

fn is_present(points: usize, i: Number) -> bool
    ensures { result ≡ is_present points i }
{
    is_natural(i) && i.size < points
}

// Two points of the sheet, not the same.
fn are_two(points: usize, i: Number, j: Number) -> bool
    ensures { result ≡ are_two points i j }
{
    is_present(points, i) && is_present(points, j) && i.size != j.size
}

// span=I,J,D
fn span(text: &[u8], at: usize, points: usize) -> Read<Rule>
    requires { points ≤ most_points }
    ensures { read_in text.now result ≡ span_of points (drop at text.now) }
{
    let fields = behind_key(text, at, b"span=")?;
    let ((i, j, d), next) = three_fields(text, fields)?;
    if !is_between(1, MOST_LENGTH, d) {
        return Err(Fault::OutOfRange);
    }
    if are_two(points, i, j) {
        let rule = Rule {
            kind: Kind::Span,
            first: i.size,
            second: j.size,
            length: d.size,
        };
        return Ok((rule, next));
    }
    Err(Fault::NoPoint)
}

// A key and I,J: a rule of the kind, without a length.
fn aligned(text: &[u8], at: usize, key: &[u8], kind: Kind, points: usize) -> Read<Rule>
    requires { points ≤ most_points }
    ensures { read_in text.now result
        ≡ bind (aligned_of key.now points (drop at text.now)) (aligned_by kind) }
{
    let fields = behind_key(text, at, key)?;
    let ((i, j), next) = two_fields(text, fields)?;
    if are_two(points, i, j) {
        let rule = Rule {
            kind,
            first: i.size,
            second: j.size,
            length: 0,
        };
        return Ok((rule, next));
    }
    Err(Fault::NoPoint)
}

// By its first letter, which tells the keys apart.
fn rule(text: &[u8], at: usize, points: usize) -> Read<Rule>
    requires { points ≤ most_points }
    ensures { read_in text.now result ≡ rule_of points (drop at text.now) }
{
    let first = byte_at(text, at);
    if first == b's' {
        return span(text, at, points);
    }
    if first == b'l' {
        return aligned(text, at, b"level=", Kind::Level, points);
    }
    aligned(text, at, b"plumb=", Kind::Plumb, points)
}

fn no_rule() -> Rule
    ensures { result ≡ level 0 0 }
{
    Rule {
        kind: Kind::Level,
        first: 0,
        second: 0,
        length: 0,
    }
}

// So many rules.
fn rules(text: &[u8], at: usize, points: usize, count: usize) -> Read<Rules>
    requires { (points ≤ most_points) × (count ≤ most_rules) }
    ensures { (rules_in text.now result ≡ rules_from points count [] (drop at text.now)) ×
        IfOk result (λ r. r.0.count ≤ most_rules) }
{
    let mut list = [no_rule(); 12];
    let mut place = at;
    for i in 0..count {
        let (x, next) = rule(text, place, points)?;
        list[i] = x;
        place = next;
    }
    Ok((Rules { count, list }, place))
}

// ---- the sheet

// points=N and the points.
fn all_points(text: &[u8]) -> Read<Points>
    ensures { (points_in text.now result ≡ all_points_of text.now) ×
        IfOk result (λ r. r.0.count ≤ most_points) }
{
    let (count, at) = natural(text, 0, b"points=", 1, MOST_POINTS)?;
    points(text, at, count)
}

// rules=M and the rules.
fn all_rules(text: &[u8], at: usize, points: usize) -> Read<Rules>
    requires { points ≤ most_points }
    ensures { (rules_in text.now result ≡ all_rules_of points (drop at text.now)) ×
        IfOk result (λ r. r.0.count ≤ most_rules) }
{
    let (count, first) = natural(text, at, b"rules=", 0, MOST_RULES)?;
    rules(text, first, points, count)
}

// The lines behind the points: limit=K, reach=R, and the rules.
fn behind_points(text: &[u8], at: usize, points: Points) -> Read<Sheet>
    requires { points.count ≤ most_points }
    ensures { (sheet_in text.now result
        ≡ behind_points_of points.count (coordinates_in points) (drop at text.now)) ×
        IfOk result (λ r. (r.0.points.count ≤ most_points) × (r.0.rules.count ≤ most_rules)) }
{
    let (limit, second) = natural(text, at, b"limit=", 0, MOST_ITERATIONS)?;
    let (reach, third) = natural(text, second, b"reach=", 1, MOST_LENGTH)?;
    let (rules, rest) = all_rules(text, third, points.count)?;
    let sheet = Sheet {
        points,
        limit,
        reach,
        rules,
    };
    Ok((sheet, rest))
}

// The sheet in front of a text, and the place behind it.
pub fn read_sheet(text: &[u8]) -> Read<Sheet>
    ensures { (sheet_in text.now result ≡ sheet_of text.now) ×
        IfOk result (λ r. (r.0.points.count ≤ most_points) × (r.0.rules.count ≤ most_rules)) }
{
    let (points, at) = all_points(text)?;
    behind_points(text, at, points)
}

// The sheet that a text is: nothing follows it.
pub fn read(text: &[u8]) -> Result<Sheet, Fault>
    ensures { (whole_sheet_in result ≡ read_of text.now) × IfOk result Settles }
{
    if text.len() > MOST_BYTES {
        return Err(Fault::Malformed);
    }
    let (sheet, place) = read_sheet(text)?;
    if place < text.len() {
        return Err(Fault::Malformed);
    }
    Ok(sheet)
}
