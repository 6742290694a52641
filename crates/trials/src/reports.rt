// What is reported for a text: faults with their places and in their order, knots and needs; and a sheet written and loaded.
use crate::shared::prints;
use records::entry::Need;
use records::load::load;
use records_write::write::write;
use rules::Vote;
use sheet::drawn::Drawn;
use std::process::Abort;
use std::test::Fail;

#[test]
fn faults_of_lines_and_fields(rt: HostRuntime) -> Result<(), Fail> {
    prints(&rt, b"\n", b"fault\t4\t1\t0\n")?;
    prints(&rt, b"evnt\tA\n", b"fault\t4\t1\t0\n")?;
    prints(&rt, b"event\tA\tB\n", b"fault\t5\t1\t0\n")?;
    prints(&rt, b"event\tA-\n", b"fault\t6\t1\t2\n")?;
    prints(&rt, b"event\tthirteen_long\n", b"fault\t6\t1\t2\n")?;
    prints(&rt, b"event\tA\nevent\tA\n", b"fault\t9\t2\t2\n")?;
    prints(&rt, b"event\tA\nlinear\tA\tB\tx\t1\n", b"fault\t10\t2\t3\n")?;
    prints(&rt, b"event\tA\nneed\tA\tA\t-\n", b"fault\t7\t2\t4\n")?;
    prints(&rt, b"event\tA\ndelay\tA\tA\t0\t-\n", b"fault\t7\t2\t5\n")?;
    prints(
        &rt,
        b"event\tA\nneed\tA\tA\t63000001\n",
        b"fault\t7\t2\t4\n",
    )?;
    prints(&rt, b"event\tA\ndelay\tA\tA\t0\n", b"fault\t5\t2\t0\n")
}

#[test]
fn faults_of_records(rt: HostRuntime) -> Result<(), Fail> {
    prints(&rt, b"event\tA\nlinear\tA\tA\t2\t1\n", b"fault\t8\t2\t0\n")?;
    prints(&rt, b"event\tA\nlinear\tA\tA\t-\t-\n", b"fault\t8\t2\t0\n")?;
    prints(
        &rt,
        b"event\tA\nlinear\tA\tA\t0\t1000001\n",
        b"fault\t7\t2\t5\n",
    )?;
    prints(&rt, b"event\tA\nlinear\tA\tA\t-1000000\t1000000\n", b"")?;
    prints(
        &rt,
        b"event\tA\nlimit\t256\t0\tA\tA\t0\n",
        b"fault\t7\t2\t2\n",
    )?;
    prints(
        &rt,
        b"event\tA\nlimit\t255\t255\tA\tA\t0\n",
        b"fault\t13\t2\t0\n",
    )?;
    prints(
        &rt,
        b"event\tA\nlimit\t2\t2\tA\tA\t0\n",
        b"fault\t13\t2\t0\n",
    )
}

#[test]
fn sixty_four_needs_have_slots(rt: HostRuntime) -> Result<(), Fail> {
    let mut text = Vec::from_slice(rt.alloc(), b"event\tA\n")?;
    for _ in 0..65 {
        text.extend_from_slice(b"need\tA\tA\t0\n")?;
    }
    prints(&rt, text.as_slice(), b"fault\t16\t66\t0\n")
}

const MEMORY: &[u8] =
    b"event\tAV\nevent\tCS\nevent\tDV\ndelay\tDV\tAV\t0\t20\tCS\t0\t20\nlinear\tCS\tDV\t30\t-\n";

#[test]
fn findings(rt: HostRuntime) -> Result<(), Fail> {
    prints(&rt, b"", b"")?;
    prints(&rt, MEMORY, b"")?;
    // the delay as two lines, AV first
    prints(
        &rt,
        b"event\tAV\nevent\tCS\nevent\tDV\ndelay\tDV\tAV\t0\t20\ndelay\tDV\tCS\t0\t20\nlinear\tCS\tDV\t30\t-\nneed\tAV\tAV\t0\n",
        b"knot\t2\nknot\t4\n",
    )?;
    prints(
        &rt,
        b"event\tA\nevent\tB\nneed\tA\tB\t0\n",
        b"need\tA\tB\t0\tbroken\topen\nat\tA\t0\nat\tB\t1000000000\n",
    )
}

#[test]
fn worked_sheets(rt: HostRuntime) -> Result<(), Fail> {
    // the memory with a bound that holds nothing
    prints(
        &rt,
        b"event\tAV\nevent\tCS\nevent\tDV\ndelay\tDV\tAV\t0\t20\tCS\t0\t20\nlinear\tCS\tDV\t30\t-\nlinear\tAV\tCS\t-\t300\nneed\tAV\tCS\t-11\n",
        b"need\tAV\tCS\t-11\tbroken\t-10\nat\tAV\t0\nat\tCS\t-10\nat\tDV\t20\n",
    )?;
    // three events that hold one another back, and the same without the third bound
    prints(
        &rt,
        b"event\tA\nevent\tB\nevent\tC\nlimit\t0\t0\tA\tB\t-1\tC\t-1\nlinear\tA\tB\t-\t0\nlinear\tA\tC\t-\t0\n",
        b"knot\t0\nknot\t1\nknot\t2\n",
    )?;
    prints(
        &rt,
        b"event\tA\nevent\tB\nevent\tC\nlimit\t0\t0\tA\tB\t-1\tC\t-1\nlinear\tA\tB\t-\t0\nneed\tA\tB\t-1\n",
        b"need\tA\tB\t-1\tbroken\t0\nat\tA\t0\nat\tB\t0\nat\tC\t1000000000\n",
    )?;
    // an event and itself, and an event alone
    prints(
        &rt,
        b"event\tA\nlinear\tA\tA\t-\t0\nneed\tA\tA\t0\n",
        b"need\tA\tA\t0\tmet\t0\n",
    )?;
    prints(&rt, b"event\tA\nlinear\tA\tA\t-\t-1\n", b"knot\t0\n")?;
    prints(
        &rt,
        b"event\tA\nneed\tA\tA\t-1\n",
        b"need\tA\tA\t-1\tbroken\t0\nat\tA\t0\n",
    )
}

const WRITTEN: &[u8] =
    b"event\tAV\nevent\tCS\nevent\tDV\nlimit\t0\t0\tDV\tAV\t20\tCS\t20\nlimit\t0\t0\tAV\tDV\t0\nlimit\t0\t0\tCS\tDV\t0\nlimit\t0\t0\tCS\tDV\t-30\n";

fn loaded(rt: &(impl Abort + AllocGlobal), text: &[u8]) -> Result<Drawn<Vote>, Fail> {
    let mut sheet = Drawn::open(rt.alloc(), Vote {})?;
    let mut slots = [Need {
        from: 1,
        to: 1,
        most: 1,
    }; 2];
    load(text, &mut sheet, &mut slots).map_err(|_| "not loaded")?;
    assert!(rt; slots[0].most == 0 && slots[1].from == 0);
    Ok(sheet)
}

// What is written of a sheet into as many bytes as it takes.
fn is_written(rt: &(impl Abort + AllocGlobal), text: &[u8]) -> Result<(), Fail> {
    let sheet = loaded(rt, text)?;
    let mut out = [7u8; 108];
    assert!(rt; write(&sheet, &mut out) == Ok(108));
    assert!(rt; out.as_slice() == WRITTEN);
    Ok(())
}

#[test]
fn what_is_written_loads_again(rt: HostRuntime) -> Result<(), Fail> {
    is_written(&rt, MEMORY)?;
    is_written(&rt, WRITTEN)
}

#[test]
fn too_few_bytes_stay(rt: HostRuntime) -> Result<(), Fail> {
    let sheet = loaded(&rt, MEMORY)?;
    let mut small = [7u8; 107];
    assert!(rt; write(&sheet, &mut small).is_err());
    assert!(rt; small[0] == 7 && small[106] == 7);
    Ok(())
}
