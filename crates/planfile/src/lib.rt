// The plan file: its reader, which hands back the bytes of the rows, the decoder of one row, and its writer.
// Numbers are little-endian: one load and one store serve 16 and 32 bits, and the proofs speak of lists cut by `take` and
// `drop`.
#![tactic(auto)]

ghost use Rattle.std.specs.Prelude.{◌≡◌, ◌++◌, ◌+◌, ◌*◌, ◌/◌, ◌≤◌, ◌<◌, IfOk, IfSome, length, take, drop};
ghost use Rattle.laws.specs.Found.{found};
ghost use Rattle.laws.specs.Meant.{row_meant};
ghost use Rattle.laws.specs.Stores.{stored};
ghost use Rattle.rules.specs.PlanFiles.{value_of, bytes_of, row_bytes, rows_bytes, trailer_bytes, part_answer, part_of, row_fits, first_wide, write_answer};
ghost use Rattle.planfile.specs.Parts.{part_said};
ghost use Rattle.planfile.specs.Rows.{table_row, row_at};
ghost use Rattle.tablerows.specs.Chunks.{rows_in};
ghost use Rattle.planfile.specs.Writes.{write_said};

use refusals::Fault;
use rules::{Refusal, RowPart, TableRow, Written};
use std::ops::Range;
use tablerows::row_in;

// The most rows that a trailer may count, and the largest job that a row's 16 bits hold. They have names so that the
// must-fail edits that let in one more keep the names of the goals, and are refused by the facts.
const MOST_ROWS: u32 = 2000;

const LARGEST_JOB: u32 = 65535;

// The number of N bytes at a place, 4 at the most.
fn load<const N: usize>(s: &[u8], at: usize) -> u32
    requires short { N ≤ 4 }
    requires inside { at + N ≤ length s.now }
    ensures { result ≡ value_of (take N (drop at s.now)) }
{
    let mut bytes = [0; 4];
    bytes[..N].copy_from_slice(&s[at..at + N]);
    u32::from_le_bytes(bytes)
}

// Where the rows of a plan file stand: 11 comes before 15. `as`, here and below, goes to or from `usize` or to fewer bits:
// the proof shows that the number fits, and `try_from` would bring a branch that never comes.
fn place_rows(file: &[u8]) -> Result<Range<usize>, Refusal>
    ensures said { part_said result ≡ part_answer file.now }
    ensures within { IfOk result (λ rows. (rows.start ≤ rows.end) × (rows.end ≤ length file.now) × (rows.end ≤ 65536)) }
{
    let length = file.len();
    if 65536 < length {
        return Err(Refusal::LongFile);
    }
    if length < 8 {
        return Err(Refusal::BadTrailer);
    }
    let offset = load::<4>(file, length - 8) as usize;
    let rows = load::<4>(file, length - 4);
    if MOST_ROWS < rows || offset + 12 * (rows as usize) + 8 != length {
        return Err(Refusal::BadTrailer);
    }
    Ok(offset..length - 8)
}

// The same place, as C is given it.
#[tactic(auto, unfolding(rules::specs::PlanFiles::refused_part))]
pub fn find_rows(file: &[u8]) -> RowPart
    ensures { result ≡ part_answer file.now }
{
    match place_rows(file) {
        Ok(rows) => RowPart {
            refusal: 0,
            place: 0,
            offset: rows.start as u32,
            length: (rows.end - rows.start) as u32,
        },
        Err(refusal) => RowPart::from(Fault::from(refusal)),
    }
}

// The bytes of the rows, as a part of the file; the empty part at its front with a refusal: the answer is a part of the
// file, whatever the file.
pub fn row_part(file: &[u8]) -> &[u8]
    ensures { result.now ≡ part_of file.now }
{
    let Range {
        start: from,
        end: to,
    } = place_rows(file).unwrap_or(0..0);
    &file[from..to]
}

// The row decoder: row i, counted from 0, of a row part.
fn decode_row(part: &[u8], i: usize) -> TableRow
    requires { 12 * i + 12 ≤ length part.now }
    ensures { result ≡ table_row (row_at part.now i) }
{
    let at = 12 * i;
    TableRow {
        board: load::<2>(part, at),
        job: load::<2>(part, at + 2),
        from: load::<4>(part, at + 4),
        to: load::<4>(part, at + 8),
    }
}

// Row i of a plan file, counted from 0; all 0 behind its last row and for a file that is refused: C is given numbers, no
// None.
pub fn file_row(file: &[u8], i: usize) -> TableRow
    ensures { result ≡ table_row (row_at (part_of file.now) i) }
{
    let part = row_part(file);
    if part.len() / 12 <= i {
        return TableRow {
            board: 0,
            job: 0,
            from: 0,
            to: 0,
        };
    }
    decode_row(part, i)
}

// Stores the lowest N bytes of a number, 4 at the most.
fn put<const N: usize>(b: &mut [u8], at: usize, x: u32)
    requires short { N ≤ 4 }
    requires inside { at + N ≤ length b.old }
    ensures { b.new ≡ stored b.old at (bytes_of N x) }
{
    b[at..at + N].copy_from_slice(&x.to_le_bytes()[..N]);
}

// Puts a row at a place.
fn put_row(b: &mut [u8], at: usize, row: TableRow)
    requires { at + 12 ≤ length b.old }
    ensures { b.new ≡ stored b.old at (row_bytes (row_meant row)) }
{
    put::<2>(b, at, row.board);
    put::<2>(b, at + 2, row.job);
    put::<4>(b, at + 4, row.from);
    put::<4>(b, at + 8, row.to);
}

// Puts rows, four numbers each, at the front of a buffer. By their places in it: of parts that `chunks_exact_mut` lends
// out, a proof knows no byte afterwards.
fn put_rows(b: &mut [u8], rows: &[u32])
    requires { 12 * (length rows.now / 4) ≤ length b.old }
    ensures { b.new ≡ stored b.old 0 (rows_bytes (rows_in rows.now)) }
{
    for (i, row) in rows.chunks_exact(4).enumerate() {
        put_row(b, 12 * i, row_in(row));
    }
}

// Fills the buffer behind the note: the rows, then the trailer.
fn fill(b: &mut [u8], rows: &[u32], note: usize)
    requires room { 12 * (length rows.now / 4) + 8 ≤ length b.old }
    requires small { (length rows.now ≤ 8000) × (note ≤ 65536) }
    ensures { b.new ≡ stored b.old 0 (rows_bytes (rows_in rows.now) ++ trailer_bytes note (length rows.now / 4)) }
{
    let count = rows.len() / 4;
    put_rows(b, rows);
    put::<4>(b, 12 * count, note as u32);
    put::<4>(b, 12 * count + 4, count as u32);
}

// Board and job are at most 65,535.
#[tactic(auto, unfolding(rules::specs::PlanFiles::row_fits))]
fn row_fits(row: TableRow) -> bool
    ensures { result ≡ row_fits (row_meant row) }
{
    row.board <= 65535 && row.job <= LARGEST_JOB
}

// The first row that does not fit, counted from 1.
fn first_wide(rows: &[u32]) -> Option<usize>
    ensures first { result ≡ found (first_wide (rows_in rows.now)) }
    ensures within { IfSome result (λ i. i ≤ length rows.now / 4) }
{
    let before = rows.chunks_exact(4).position(|row| !row_fits(row_in(row)))?;
    Some(before + 1)
}

// The whole length of the plan file that is written: 13, then 11, then 14, then 10. Table and count side by side, as C lends
// them.
fn write(table: &[u32], count: usize, buffer: &mut [u8], note: usize) -> Result<u32, Fault>
    ensures said { write_said result ≡ (write_answer table.now count buffer.old note).said }
    ensures later { buffer.new ≡ (write_answer table.now count buffer.old note).buffer }
{
    if table.len() / 4 < count {
        return Err(Refusal::BadLists.into());
    }
    if 2000 < count || 65528 - 12 * count < note {
        return Err(Refusal::LongFile.into());
    }
    let rows = &table[..4 * count];
    if let Some(i) = first_wide(rows) {
        return Err(Fault {
            refusal: Refusal::OutOfRange,
            place: i as u32,
        });
    }
    let length = note + 12 * count + 8;
    if buffer.len() < length {
        return Err(Refusal::ShortBuffer.into());
    }
    fill(&mut buffer[note..], rows, note);
    Ok(length as u32)
}

// Writes a plan file behind a note of so many bytes.
pub fn write_plan(table: &[u32], count: usize, buffer: &mut [u8], note: usize) -> Written
    ensures said { result ≡ (write_answer table.now count buffer.old note).said }
    ensures later { buffer.new ≡ (write_answer table.now count buffer.old note).buffer }
{
    match write(table, count, buffer, note) {
        Ok(length) => Written {
            refusal: 0,
            place: 0,
            length,
        },
        Err(fault) => Written::from(fault),
    }
}
