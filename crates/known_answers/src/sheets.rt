// A fixed list of sheets, with each kind of end and of fault: what is printed of each.
use std::io;

// The bytes before the first zero.
fn print_slot(rt: &impl Print, slot: &[u8]) -> io::Result<()> {
    let end = slot.iter().position(|&b| b == 0).unwrap_or(slot.len());
    rt.write_all(&slot[..end])
}

fn print_sheet(rt: &impl Print, name: &str, text: &[u8]) -> io::Result<()> {
    let mut area = [0.0; 8000];
    let mut slot = [0u8; 320];
    println!(rt; "sheet: {name}")?;
    let _ = sheet::settle_text(text, &mut area, &mut slot);
    print_slot(rt, &slot)
}

// Each stop that a sheet can have, and numbers with signs and zeros.
fn print_settled(rt: &impl Print) -> io::Result<()> {
    print_sheet(
        rt,
        "budget",
        b"points=1\nat=3,4\nlimit=0\nreach=1\nrules=0\n",
    )?;
    print_sheet(
        rt,
        "flat",
        b"points=2\nat=1,0\nat=0,0\nlimit=8\nreach=1\nrules=1\nspan=0,1,7\n",
    )?;
    print_sheet(
        rt,
        "nochange",
        b"points=2\nat=0,1\nat=0,0\nlimit=5\nreach=1\nrules=1\nlevel=0,1\n",
    )?;
    print_sheet(
        rt,
        "undecided",
        b"points=2\nat=3,0\nat=-2,0\nlimit=5\nreach=9\nrules=1\nplumb=1,0\n",
    )?;
    print_sheet(
        rt,
        "damped",
        b"points=3\nat=0,0\nat=1900000,0\nat=0,9000000\nlimit=10\nreach=1\nrules=3\nlevel=0,2\nplumb=0,1\nspan=0,2,1\n",
    )?;
    print_sheet(
        rt,
        "signs and zeros",
        b"points=+02\nat=-0,+0\nat=003,+4\nlimit=-0\nreach=0001000\nrules=1\nspan=-0,+1,007\n",
    )
}

// Each fault, and which of two goes first.
fn print_refused(rt: &impl Print) -> io::Result<()> {
    print_sheet(rt, "no text", b"")?;
    print_sheet(
        rt,
        "no last line feed",
        b"points=2\nat=0,0\nat=3000,4000\nlimit=5\nreach=1000\nrules=1\nspan=0,1,7000",
    )?;
    print_sheet(
        rt,
        "a line too many",
        b"points=2\nat=0,0\nat=3000,4000\nlimit=5\nreach=1000\nrules=1\nspan=0,1,7000\n\n",
    )?;
    print_sheet(
        rt,
        "a range behind a wrong form",
        b"points=2\nat=0,0\nat=99999999,x\nlimit=5\nreach=1000\nrules=1\nspan=0,1,7000\n",
    )?;
    print_sheet(
        rt,
        "a number outside its range",
        b"points=2\nat=0,0\nat=10000001,0\nlimit=5\nreach=1000\nrules=1\nspan=0,1,7000\n",
    )?;
    print_sheet(
        rt,
        "a length of 0 between equal points",
        b"points=2\nat=0,0\nat=3000,4000\nlimit=5\nreach=1000\nrules=1\nspan=1,1,0\n",
    )?;
    print_sheet(
        rt,
        "equal points",
        b"points=2\nat=0,0\nat=3000,4000\nlimit=5\nreach=1000\nrules=1\nspan=1,1,7000\n",
    )?;
    print_sheet(
        rt,
        "a point not present",
        b"points=2\nat=0,0\nat=3000,4000\nlimit=5\nreach=1000\nrules=1\nlevel=0,-1\n",
    )?;
    print_sheet(
        rt,
        "a number beyond 64 bits",
        b"points=2\nat=0,0\nat=3000,4000\nlimit=100000000000000000005\nreach=1000\nrules=1\nspan=0,1,7000\n",
    )
}

pub fn print_sheets(rt: &impl Print) -> io::Result<()> {
    print_settled(rt)?;
    print_refused(rt)
}
