use crate::cells::{blank_from, buffer};
use crate::shown;
use foreign::every::Every;
use lanes::lanes::{LaneTables, Lanes};
use lanes::transpose::transpose;
use patches::patch_set::PatchSet;

const OFFSETS: [u32; 5] = [0, 2, 3, 4, 5];

const ENTRIES: [u16; 5] = [2, 6, 5, 4, 975];

const VALUES: [i64; 5] = [7, 9, 8, 10, 11];

// Sound tables: rows 2 and 6, 5, 1028 and 1999 of 2000, in two lanes.
fn sound() -> LaneTables<'static, i64> {
    LaneTables {
        rows: 2000,
        lanes: 2,
        offsets: &OFFSETS,
        entries: &ENTRIES,
        values: &VALUES,
    }
}

// Loads these tables, of which the name says what is wrong, and says what the lanes hold: they held sound tables before,
// and where these are refused they still do.
fn load_case(
    rt: &HostRuntime,
    name: &str,
    tables: &LaneTables<'static, i64>,
) -> anyhow::Result<()> {
    let mut lanes = Lanes::load(&sound()).unwrap_or(Lanes::empty());
    let outcome = match Lanes::load(tables) {
        Ok(loaded) => {
            lanes = loaded;
            Ok(())
        }
        Err(refusal) => Err(refusal),
    };
    shown::outcome(rt, name, outcome)?;
    let rows = lanes.rows();
    let patches = lanes.num_patches();
    let last = lanes.find(1999);
    println!(rt; "  holds {rows} {patches} {last:?}")?;
    Ok(())
}

// Rows and lane counts that are refused, and others.
fn shapes(rt: &HostRuntime) -> anyhow::Result<()> {
    for (name, rows, lanes) in [
        ("sound", 2000u64, 2u64),
        ("too many rows", 2147483649, 2),
        ("too many rows, no lanes", 2147483649, 0),
        ("no lanes", 2000, 0),
        ("three lanes", 2000, 3),
        ("2048 lanes", 2000, 2048),
        ("four lanes", 2000, 4),
        ("one chunk", 1024, 2),
        ("three chunks", 2049, 2),
        ("two whole chunks", 2048, 2),
    ] {
        let tables = LaneTables {
            rows,
            lanes,
            ..sound()
        };
        load_case(rt, name, &tables)?;
    }
    Ok(())
}

// Offsets, each with one fault.
fn offset_tables(rt: &HostRuntime) -> anyhow::Result<()> {
    let tables: [(&'static str, &'static [u32]); 5] = [
        ("an offset too few", &[0, 2, 3, 5]),
        ("an offset too many", &[0, 2, 3, 4, 5, 5]),
        ("first offset", &[1, 2, 3, 4, 5]),
        ("falling offset", &[0, 2, 1, 4, 5]),
        ("last offset", &[0, 2, 3, 4, 4]),
    ];
    for (name, offsets) in tables {
        let tables = LaneTables { offsets, ..sound() };
        load_case(rt, name, &tables)?;
    }
    Ok(())
}

// Entries, each with one fault.
fn entry_tables(rt: &HostRuntime) -> anyhow::Result<()> {
    let tables: [(&'static str, &'static [u16]); 6] = [
        ("entry 1024", &[2, 1024, 5, 4, 975]),
        ("another lane", &[2, 6, 4, 4, 975]),
        ("out of order", &[6, 2, 5, 4, 975]),
        ("twice", &[2, 2, 5, 4, 975]),
        ("past the rows", &[2, 6, 5, 4, 977]),
        ("last row of chunk 0", &[2, 6, 1023, 4, 975]),
    ];
    for (name, entries) in tables {
        let tables = LaneTables { entries, ..sound() };
        load_case(rt, name, &tables)?;
    }
    Ok(())
}

/// Tables that are refused, each leaving the lanes as they were, and tables that are accepted.
pub fn loads(rt: &HostRuntime) -> anyhow::Result<()> {
    shapes(rt)?;
    offset_tables(rt)?;
    entry_tables(rt)?;
    let few = LaneTables {
        values: &[7, 9, 8, 10],
        ..sound()
    };
    load_case(rt, "a value too few", &few)?;
    let nothing = LaneTables {
        rows: 0,
        lanes: 1024,
        offsets: &[0],
        entries: &[],
        values: &[],
    };
    load_case(rt, "no rows", &nothing)
}

// How long the outputs of a transposition are.
#[derive(Clone, Copy)]
struct Room {
    name: &'static str,
    lanes: u64,
    offsets: u64,
    entries: u64,
    values: u64,
}

// Writes a set in lanes to outputs of given lengths, and says how much of each is blank afterwards.
fn transpose_case(rt: &HostRuntime, set: &Every, room: Room) -> anyhow::Result<()> {
    let heap = rt.alloc();
    let mut offsets = buffer(heap, room.offsets)?;
    let mut entries = buffer(heap, room.entries)?;
    let mut values = buffer(heap, room.values)?;
    let result = transpose(set, room.lanes, &mut offsets, &mut entries, &mut values);
    shown::outcome(rt, room.name, result.map(|_| ()))?;
    shown::line(
        rt,
        "  blank",
        &[
            blank_from(&offsets, 0),
            blank_from(&entries, 0),
            blank_from(&values, 0),
        ],
    )
}

/// Transpositions of 286 patches in 2000 rows that are refused, each writing nothing; and two that just fit.
pub fn transpositions(rt: &HostRuntime) -> anyhow::Result<()> {
    let set = Every::new(2000, 7, 3);
    for (name, lanes, offsets, entries, values) in [
        ("transpose, no lanes", 0u64, 33u64, 286u64, 286u64),
        ("transpose, three lanes", 3, 33, 286, 286),
        ("transpose, 2048 lanes", 2048, 5000, 286, 286),
        ("transpose, three lanes and no room", 3, 0, 0, 0),
        ("transpose, offsets short", 16, 32, 286, 286),
        ("transpose, entries short", 16, 33, 285, 286),
        ("transpose, values short", 16, 33, 286, 285),
        ("transpose, just enough", 16, 33, 286, 286),
        ("transpose, one lane, just enough", 1, 3, 286, 286),
    ] {
        let room = Room {
            name,
            lanes,
            offsets,
            entries,
            values,
        };
        transpose_case(rt, &set, room)?;
    }
    Ok(())
}
