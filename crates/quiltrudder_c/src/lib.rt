// The operations under their C names: each hands its arguments to the function of its name in `quiltrudder`, and promises the same.
#![tactic(auto)]

ghost use Rattle.std.specs.Prelude.{◌≡◌};
ghost use Rattle.places.specs.Places.{spot_at};
ghost use Rattle.shipping.specs.Shipping.{shipping};
ghost use Rattle.quiltrudder.specs.Face.{spot_cells, LoadFace, load_face, validate_face, FaultsFace, faults_face, ReportFace, MarkFace, NextFace, PruneFace, name_face, ValueFace, value_face, StoreFace, store_face, RestoreFace, restore_face, ShipFace, ship_face};

// Reads a source of kind 1, 2, 3 or 4 into the lent tables and, where that is accepted, validates what was read.
#[unsafe(no_mangle)]
pub extern "C" fn quiltrudder_load(
    src: &[u8],
    kind: u32,
    t1: &mut [u32],
    t2: &mut [u32],
    t3: &mut [u32],
    t4: &mut [u32],
    t5: &mut [u32],
    t6: &mut [u32],
    t7: &mut [u32],
    t8: &mut [u32],
    t9: &mut [u32],
    t10: &mut [u32],
    i1: &mut [u32],
    i7: &mut [u32],
    t15: &mut [u32],
    t16: &mut [u32],
    t17: &mut [u32],
    answer: &mut [u32; 43],
)
    ensures { ◌≡◌ {A = LoadFace} (record { answer = answer.new; tables = record { t1 = t1.new; t2 = t2.new; t3 = t3.new; t4 = t4.new; t5 = t5.new; t6 = t6.new; t7 = t7.new; t8 = t8.new; t9 = t9.new; t10 = t10.new; t15 = t15.new; t16 = t16.new; t17 = t17.new }; indexes = record { tokens = i1.new; rules = i7.new } }) (load_face src.now kind (record { t1 = t1.old; t2 = t2.old; t3 = t3.old; t4 = t4.old; t5 = t5.old; t6 = t6.old; t7 = t7.old; t8 = t8.old; t9 = t9.old; t10 = t10.old; t15 = t15.old; t16 = t16.old; t17 = t17.old }) (record { tokens = i1.old; rules = i7.old })) }
{
    quiltrudder::quiltrudder_load(
        src, kind, t1, t2, t3, t4, t5, t6, t7, t8, t9, t10, i1, i7, t15, t16, t17, answer,
    )
}

// Whether a reading is valid, or the first that it lacks. `reading` is the array that `quiltrudder_load` wrote.
#[unsafe(no_mangle)]
pub extern "C" fn quiltrudder_validate(
    src: &[u8],
    reading: &[u32; 43],
    t1: &[u32],
    t2: &[u32],
    t3: &[u32],
    t4: &[u32],
    t5: &[u32],
    t6: &[u32],
    t7: &[u32],
    t8: &[u32],
    t9: &[u32],
    t10: &[u32],
    i1: &[u32],
    i7: &[u32],
    answer: &mut [u32; 6],
)
    ensures { answer.new ≡ validate_face src.now reading.now (record { t1 = t1.now; t2 = t2.now; t3 = t3.now; t4 = t4.now; t5 = t5.now; t6 = t6.now; t7 = t7.now; t8 = t8.now; t9 = t9.now; t10 = t10.now }) (record { tokens = i1.now; rules = i7.now }) }
{
    quiltrudder::quiltrudder_validate(
        src, reading, t1, t2, t3, t4, t5, t6, t7, t8, t9, t10, i1, i7, answer,
    )
}

// Every fault that a reading has, as rows of `t14`.
#[unsafe(no_mangle)]
pub extern "C" fn quiltrudder_faults(
    src: &[u8],
    reading: &[u32; 43],
    t1: &[u32],
    t2: &[u32],
    t3: &[u32],
    t4: &[u32],
    t5: &[u32],
    t6: &[u32],
    t7: &[u32],
    t8: &[u32],
    t9: &[u32],
    t10: &[u32],
    i1: &[u32],
    i7: &[u32],
    t14: &mut [u32],
    answer: &mut [u32; 8],
)
    ensures { ◌≡◌ {A = FaultsFace} (record { answer = answer.new; cells = t14.new }) (faults_face src.now reading.now (record { t1 = t1.now; t2 = t2.now; t3 = t3.now; t4 = t4.now; t5 = t5.now; t6 = t6.now; t7 = t7.now; t8 = t8.now; t9 = t9.now; t10 = t10.now }) (record { tokens = i1.now; rules = i7.now }) t14.old) }
{
    quiltrudder::quiltrudder_faults(
        src, reading, t1, t2, t3, t4, t5, t6, t7, t8, t9, t10, i1, i7, t14, answer,
    )
}

// The unused rules and tokens of a valid reading, into `out`.
#[unsafe(no_mangle)]
pub extern "C" fn quiltrudder_report(
    src: &[u8],
    reading: &[u32; 43],
    t1: &[u32],
    t2: &[u32],
    t3: &[u32],
    t4: &[u32],
    t5: &[u32],
    t6: &[u32],
    t7: &[u32],
    t8: &[u32],
    t9: &[u32],
    t10: &[u32],
    i1: &[u32],
    i7: &[u32],
    work: &mut [u32],
    out: &mut [u32],
    answer: &mut [u32; 8],
)
    ensures { ReportFace src.now reading.now (record { t1 = t1.now; t2 = t2.now; t3 = t3.now; t4 = t4.now; t5 = t5.now; t6 = t6.now; t7 = t7.now; t8 = t8.now; t9 = t9.now; t10 = t10.now }) (record { tokens = i1.now; rules = i7.now }) work.old work.new out.old out.new answer.new }
{
    quiltrudder::quiltrudder_report(
        src, reading, t1, t2, t3, t4, t5, t6, t7, t8, t9, t10, i1, i7, work, out, answer,
    )
}

// The report's work bits of a valid reading, without the list.
#[unsafe(no_mangle)]
pub extern "C" fn quiltrudder_mark(
    src: &[u8],
    reading: &[u32; 43],
    t1: &[u32],
    t2: &[u32],
    t3: &[u32],
    t4: &[u32],
    t5: &[u32],
    t6: &[u32],
    t7: &[u32],
    t8: &[u32],
    t9: &[u32],
    t10: &[u32],
    i1: &[u32],
    i7: &[u32],
    work: &mut [u32],
    answer: &mut [u32; 6],
)
    ensures { MarkFace src.now reading.now (record { t1 = t1.now; t2 = t2.now; t3 = t3.now; t4 = t4.now; t5 = t5.now; t6 = t6.now; t7 = t7.now; t8 = t8.now; t9 = t9.now; t10 = t10.now }) (record { tokens = i1.now; rules = i7.now }) work.old work.new answer.new }
{
    quiltrudder::quiltrudder_mark(
        src, reading, t1, t2, t3, t4, t5, t6, t7, t8, t9, t10, i1, i7, work, answer,
    )
}

// The next unused row by the bits; the record's two numbers, rule rows and token rows passed, are moved on in place.
#[unsafe(no_mangle)]
pub extern "C" fn quiltrudder_next_unused(
    src: &[u8],
    reading: &[u32; 43],
    t1: &[u32],
    t2: &[u32],
    t3: &[u32],
    t4: &[u32],
    t5: &[u32],
    t6: &[u32],
    t7: &[u32],
    t8: &[u32],
    t9: &[u32],
    t10: &[u32],
    i1: &[u32],
    i7: &[u32],
    work: &[u32],
    at: &mut [u32; 2],
    answer: &mut [u32; 8],
)
    ensures { NextFace src.now reading.now (record { t1 = t1.now; t2 = t2.now; t3 = t3.now; t4 = t4.now; t5 = t5.now; t6 = t6.now; t7 = t7.now; t8 = t8.now; t9 = t9.now; t10 = t10.now }) (record { tokens = i1.now; rules = i7.now }) work.now at.old at.new answer.new }
{
    quiltrudder::quiltrudder_next_unused(
        src, reading, t1, t2, t3, t4, t5, t6, t7, t8, t9, t10, i1, i7, work, at, answer,
    )
}

// Drops what nothing keeps; the reading's counts are rewritten.
#[unsafe(no_mangle)]
pub extern "C" fn quiltrudder_prune(
    src: &[u8],
    reading: &mut [u32; 43],
    t1: &mut [u32],
    t2: &[u32],
    t3: &mut [u32],
    t4: &[u32],
    t5: &mut [u32],
    t6: &[u32],
    t7: &mut [u32],
    t8: &mut [u32],
    t9: &mut [u32],
    t10: &[u32],
    i1: &mut [u32],
    i7: &mut [u32],
    work: &mut [u32],
    answer: &mut [u32; 6],
)
    ensures { PruneFace src.now reading.old reading.new (record { t1 = t1.old; t2 = t2.now; t3 = t3.old; t4 = t4.now; t5 = t5.old; t6 = t6.now; t7 = t7.old; t8 = t8.old; t9 = t9.old; t10 = t10.now }) (record { t1 = t1.new; t2 = t2.now; t3 = t3.new; t4 = t4.now; t5 = t5.new; t6 = t6.now; t7 = t7.new; t8 = t8.new; t9 = t9.new; t10 = t10.now }) (record { tokens = i1.old; rules = i7.old }) (record { tokens = i1.new; rules = i7.new }) work.old work.new answer.new }
{
    quiltrudder::quiltrudder_prune(
        src, reading, t1, t2, t3, t4, t5, t6, t7, t8, t9, t10, i1, i7, work, answer,
    )
}

// The place of the name of a row of table 1 or 7, with its line and column.
#[unsafe(no_mangle)]
pub extern "C" fn quiltrudder_name(
    src: &[u8],
    reading: &[u32; 43],
    t1: &[u32],
    t2: &[u32],
    t3: &[u32],
    t4: &[u32],
    t5: &[u32],
    t6: &[u32],
    t7: &[u32],
    t8: &[u32],
    t9: &[u32],
    t10: &[u32],
    i1: &[u32],
    i7: &[u32],
    table: u32,
    row: u32,
    answer: &mut [u32; 4],
)
    ensures { answer.new ≡ name_face src.now reading.now (record { t1 = t1.now; t2 = t2.now; t3 = t3.now; t4 = t4.now; t5 = t5.now; t6 = t6.now; t7 = t7.now; t8 = t8.now; t9 = t9.now; t10 = t10.now }) (record { tokens = i1.now; rules = i7.now }) table row }
{
    quiltrudder::quiltrudder_name(
        src, reading, t1, t2, t3, t4, t5, t6, t7, t8, t9, t10, i1, i7, table, row, answer,
    )
}

// The value of a row of table 5 without its quotes and escapes, into `out`.
#[unsafe(no_mangle)]
pub extern "C" fn quiltrudder_epp_value(
    src: &[u8],
    reading: &[u32; 43],
    t1: &[u32],
    t2: &[u32],
    t3: &[u32],
    t4: &[u32],
    t5: &[u32],
    t6: &[u32],
    t7: &[u32],
    t8: &[u32],
    t9: &[u32],
    t10: &[u32],
    i1: &[u32],
    i7: &[u32],
    row: u32,
    out: &mut [u8],
    answer: &mut [u32; 8],
)
    ensures { ◌≡◌ {A = ValueFace} (record { answer = answer.new; out = out.new }) (value_face src.now reading.now (record { t1 = t1.now; t2 = t2.now; t3 = t3.now; t4 = t4.now; t5 = t5.now; t6 = t6.now; t7 = t7.now; t8 = t8.now; t9 = t9.now; t10 = t10.now }) (record { tokens = i1.now; rules = i7.now }) row out.old) }
{
    quiltrudder::quiltrudder_epp_value(
        src, reading, t1, t2, t3, t4, t5, t6, t7, t8, t9, t10, i1, i7, row, out, answer,
    )
}

// Line and column of a place in a source.
#[unsafe(no_mangle)]
pub extern "C" fn quiltrudder_locate(src: &[u8], at: u32, answer: &mut [u32; 2])
    ensures { answer.new ≡ spot_cells (spot_at src.now at) }
{
    quiltrudder::quiltrudder_locate(src, at, answer)
}

// Writes a reading into blocks; its answer is number, place, table, how many blocks there are (low and high half), line and column.
#[unsafe(no_mangle)]
pub extern "C" fn quiltrudder_store(
    src: &[u8],
    kind: u32,
    reading: &[u32; 43],
    t1: &[u32],
    t2: &[u32],
    t3: &[u32],
    t4: &[u32],
    t5: &[u32],
    t6: &[u32],
    t7: &[u32],
    t8: &[u32],
    t9: &[u32],
    t10: &[u32],
    i1: &[u32],
    i7: &[u32],
    t15: &[u32],
    t16: &[u32],
    t17: &[u32],
    blocks: &mut [u8],
    answer: &mut [u32; 8],
)
    ensures { ◌≡◌ {A = StoreFace} (record { answer = answer.new; blocks = blocks.new }) (store_face src.now kind reading.now (record { t1 = t1.now; t2 = t2.now; t3 = t3.now; t4 = t4.now; t5 = t5.now; t6 = t6.now; t7 = t7.now; t8 = t8.now; t9 = t9.now; t10 = t10.now; t15 = t15.now; t16 = t16.now; t17 = t17.now }) (record { tokens = i1.now; rules = i7.now }) blocks.old) }
{
    quiltrudder::quiltrudder_store(
        src, kind, reading, t1, t2, t3, t4, t5, t6, t7, t8, t9, t10, i1, i7, t15, t16, t17, blocks,
        answer,
    )
}

// Reads a reading back from blocks.
#[unsafe(no_mangle)]
pub extern "C" fn quiltrudder_load_stored(
    blocks: &[u8],
    src: &mut [u8],
    t1: &mut [u32],
    t2: &mut [u32],
    t3: &mut [u32],
    t4: &mut [u32],
    t5: &mut [u32],
    t6: &mut [u32],
    t7: &mut [u32],
    t8: &mut [u32],
    t9: &mut [u32],
    t10: &mut [u32],
    i1: &mut [u32],
    i7: &mut [u32],
    t15: &mut [u32],
    t16: &mut [u32],
    t17: &mut [u32],
    answer: &mut [u32; 45],
)
    ensures { ◌≡◌ {A = RestoreFace} (record { answer = answer.new; source = src.new; tables = record { t1 = t1.new; t2 = t2.new; t3 = t3.new; t4 = t4.new; t5 = t5.new; t6 = t6.new; t7 = t7.new; t8 = t8.new; t9 = t9.new; t10 = t10.new; t15 = t15.new; t16 = t16.new; t17 = t17.new }; indexes = record { tokens = i1.new; rules = i7.new } }) (restore_face blocks.now src.old (record { t1 = t1.old; t2 = t2.old; t3 = t3.old; t4 = t4.old; t5 = t5.old; t6 = t6.old; t7 = t7.old; t8 = t8.old; t9 = t9.old; t10 = t10.old; t15 = t15.old; t16 = t16.old; t17 = t17.old }) (record { tokens = i1.old; rules = i7.old })) }
{
    quiltrudder::quiltrudder_load_stored(
        blocks, src, t1, t2, t3, t4, t5, t6, t7, t8, t9, t10, i1, i7, t15, t16, t17, answer,
    )
}

// Reads a source of kind 1, 2 or 3 and writes its shipping form into `out`.
#[unsafe(no_mangle)]
pub extern "C" fn quiltrudder_ship(
    src: &[u8],
    kind: u32,
    t1: &mut [u32],
    t2: &mut [u32],
    t3: &mut [u32],
    t4: &mut [u32],
    t5: &mut [u32],
    t6: &mut [u32],
    t7: &mut [u32],
    t8: &mut [u32],
    t9: &mut [u32],
    t10: &mut [u32],
    i1: &mut [u32],
    i7: &mut [u32],
    out: &mut [u8],
    answer: &mut [u32; 45],
)
    ensures { ◌≡◌ {A = ShipFace} (record { answer = answer.new; tables = record { t1 = t1.new; t2 = t2.new; t3 = t3.new; t4 = t4.new; t5 = t5.new; t6 = t6.new; t7 = t7.new; t8 = t8.new; t9 = t9.new; t10 = t10.new }; indexes = record { tokens = i1.new; rules = i7.new }; out = out.new }) (ship_face src.now kind (record { t1 = t1.old; t2 = t2.old; t3 = t3.old; t4 = t4.old; t5 = t5.old; t6 = t6.old; t7 = t7.old; t8 = t8.old; t9 = t9.old; t10 = t10.old }) (record { tokens = i1.old; rules = i7.old }) out.old) }
{
    quiltrudder::quiltrudder_ship(
        src, kind, t1, t2, t3, t4, t5, t6, t7, t8, t9, t10, i1, i7, out, answer,
    )
}
