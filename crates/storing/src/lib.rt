// Writing a reading into the catalogue's blocks.
#![tactic(auto)]

ghost use Rattle.std.specs.Prelude.{◌≡◌, ◌+◌, ◌*◌, ◌≤◌, ◌<◌, length, take};
ghost use Rattle.blocks.specs.Blocks.{bytes_of_all, capacity, put_content, seal_all, blocks_for};
ghost use Rattle.catalogue.specs.Catalogue.{head_cells, cells_at, rows_from, content_size, row_cells, content};
ghost use Rattle.grammar.specs.Sound.{AllTables, cells_of};
ghost use Rattle.storing.specs.Storing.{StoreResult, store_all};

use catalogue::Head;
use grammar::{Counts, PosixCounts, Singles};

#[derive(Clone, Copy)]
pub enum StoringError {
    UnknownKind,
    StoringUnsound,
    NoBlocks,
}

// The rows of the table with index `k`, at their place in the content.
fn put_rows(out: &mut [u8], c: Counts, p: PosixCounts, k: u8, t: &[u32])
    requires { (k < 13) × (cells_at c p k ≤ length t.now) × (rows_from c p 13 ≤ capacity out.old) }
    ensures { out.new ≡ put_content out.old (rows_from c p k) (bytes_of_all (take (cells_at c p k) t.now)) }
{
    blocks::put_numbers(
        out,
        catalogue::rows_from(c, p, k),
        t,
        catalogue::cells_at(c, p, k),
    );
}

// Those of all thirteen.
fn put_tables(
    out: &mut [u8],
    c: Counts,
    p: PosixCounts,
    t1: &[u32],
    t2: &[u32],
    t3: &[u32],
    t4: &[u32],
    t5: &[u32],
    t6: &[u32],
    t7: &[u32],
    t8: &[u32],
    t9: &[u32],
    t10: &[u32],
    t15: &[u32],
    t16: &[u32],
    t17: &[u32],
)
    requires { ((k : _) → k < 13 → cells_at c p k ≤ length (cells_of (record { t1 = t1.now; t2 = t2.now; t3 = t3.now; t4 = t4.now; t5 = t5.now; t6 = t6.now; t7 = t7.now; t8 = t8.now; t9 = t9.now; t10 = t10.now; t15 = t15.now; t16 = t16.now; t17 = t17.now }) k)) × (rows_from c p 13 ≤ capacity out.old) }
    ensures { out.new ≡ put_content out.old (rows_from c p 0) (bytes_of_all (row_cells c p (record { t1 = t1.now; t2 = t2.now; t3 = t3.now; t4 = t4.now; t5 = t5.now; t6 = t6.now; t7 = t7.now; t8 = t8.now; t9 = t9.now; t10 = t10.now; t15 = t15.now; t16 = t16.now; t17 = t17.now }) 0 13)) }
{
    put_rows(out, c, p, tables::TOKENS, t1);
    put_rows(out, c, p, tables::PRECEDENCES, t2);
    put_rows(out, c, p, tables::AVOIDED, t3);
    put_rows(out, c, p, tables::IMPLICIT, t4);
    put_rows(out, c, p, tables::EPPS, t5);
    put_rows(out, c, p, tables::UNUSED, t6);
    put_rows(out, c, p, tables::RULES, t7);
    put_rows(out, c, p, tables::PRODUCTIONS, t8);
    put_rows(out, c, p, tables::SYMBOLS, t9);
    put_rows(out, c, p, tables::REPEATS, t10);
    put_rows(out, c, p, tables::TAGS, t15);
    put_rows(out, c, p, tables::TOKEN_NUMBERS, t16);
    put_rows(out, c, p, tables::BODIES, t17);
}

// Head, rows and source, and every block closed.
fn write(
    src: &[u8],
    h: Head,
    t1: &[u32],
    t2: &[u32],
    t3: &[u32],
    t4: &[u32],
    t5: &[u32],
    t6: &[u32],
    t7: &[u32],
    t8: &[u32],
    t9: &[u32],
    t10: &[u32],
    t15: &[u32],
    t16: &[u32],
    t17: &[u32],
    out: &mut [u8],
    n: u32,
)
    requires { (length src.now ≡ h.length) × ((k : _) → k < 13 → cells_at h.counts h.posix k ≤ length (cells_of (record { t1 = t1.now; t2 = t2.now; t3 = t3.now; t4 = t4.now; t5 = t5.now; t6 = t6.now; t7 = t7.now; t8 = t8.now; t9 = t9.now; t10 = t10.now; t15 = t15.now; t16 = t16.now; t17 = t17.now }) k)) × (n ≡ blocks_for (content_size h.counts h.posix h.length)) × (n * 512 ≤ length out.old) }
    ensures { out.new ≡ seal_all n (put_content out.old 0 (content h (record { t1 = t1.now; t2 = t2.now; t3 = t3.now; t4 = t4.now; t5 = t5.now; t6 = t6.now; t7 = t7.now; t8 = t8.now; t9 = t9.now; t10 = t10.now; t15 = t15.now; t16 = t16.now; t17 = t17.now }) src.now)) }
{
    let c = h.counts;
    let p = h.posix;
    let head = catalogue::head_cells(h);
    blocks::put_numbers(out, 0, &head, 39);
    put_tables(
        out, c, p, t1, t2, t3, t4, t5, t6, t7, t8, t9, t10, t15, t16, t17,
    );
    blocks::put_bytes(out, catalogue::rows_from(c, p, 13), src);
    blocks::seal_all(out, n);
}

// Writes a reading of the kind into blocks; answers how many there are.
pub fn store(
    src: &[u8],
    kind: u32,
    c: Counts,
    p: PosixCounts,
    g: Singles,
    t1: &[u32],
    t2: &[u32],
    t3: &[u32],
    t4: &[u32],
    t5: &[u32],
    t6: &[u32],
    t7: &[u32],
    t8: &[u32],
    t9: &[u32],
    t10: &[u32],
    i1: &[u32],
    i7: &[u32],
    t15: &[u32],
    t16: &[u32],
    t17: &[u32],
    out: &mut [u8],
) -> Result<u32, StoringError>
    ensures { ◌≡◌ {A = StoreResult} (record { answer = result; blocks = out.new }) (store_all src.now kind c p g (record { t1 = t1.now; t2 = t2.now; t3 = t3.now; t4 = t4.now; t5 = t5.now; t6 = t6.now; t7 = t7.now; t8 = t8.now; t9 = t9.now; t10 = t10.now; t15 = t15.now; t16 = t16.now; t17 = t17.now }) (record { tokens = i1.now; rules = i7.now }) out.old) }
{
    values::zero(out);
    if (kind < 1) | (4 < kind) {
        return Err(StoringError::UnknownKind);
    }
    if !catalogue::is_sound(
        src, c, p, g, t1, t2, t3, t4, t5, t6, t7, t8, t9, t10, i1, i7, t15, t16, t17,
    ) {
        return Err(StoringError::StoringUnsound);
    }
    let size = catalogue::content_size(c, p, src.len());
    let n = (size + 503) / 504;
    if out.len() / 512 < n {
        return Err(StoringError::NoBlocks);
    }
    let length = src.len() as u32;
    let h = Head {
        kind,
        counts: c,
        posix: p,
        length,
        singles: g,
    };
    write(
        src, h, t1, t2, t3, t4, t5, t6, t7, t8, t9, t10, t15, t16, t17, out, n as u32,
    );
    Ok(n as u32)
}
