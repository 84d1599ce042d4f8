// The line program: reads lines from standard input, serves each by crate `lines`, and writes what it prints to standard output. The
// input may have any length: it comes in blocks, and of a line no more is kept than shows that it is too long. The program ends where the
// input does, and where its input or its output fails, which it then says on standard error.
#![tactic(auto)]

ghost use Rattle.std.specs.Prelude.{◌≡◌, List, ◌++◌, ℕ, ◌+◌, ◌-◌, ◌^◌, ◌<◌, ◌≤◌, length, IfOk, OnOk, IfSome};
ghost use Rattle.std.specs.Io.KnownBytes.{Appends};
ghost use Rattle.text.specs.Print.{laid};
ghost use Rattle.line.specs.Line.{most_signs};
ghost use Rattle.answers.specs.Answer.{most_text};
ghost use Rattle.lines.specs.Input.{state_of, program_octets, first_state, line_text, after_line, left_by, output_of};
ghost use Rattle.lines.specs.Blocks.{LedBy, Led, standing_after, block_text, end_text};

use anyhow::{Context, Result};
use std::io::{Read, Write};

// The octets of a block of input.
const BLOCK: usize = 65536;

// The octets of the buffer for a line: one more than a line may have.
const LINE: usize = line::MOST_SIGNS + 1;

// The octets of the table.
const TABLE: usize = 65536;

// The octets of the buffer for what a line prints: the most that one prints over the table, which `most_text` in answers/specs/Answer.antt
// counts.
const TEXT: usize = answers::MOST_ANSWER + 2 * TABLE + 6 * (TABLE / answers::LEAST_RECORD);

// Where the program stands: the octets of a line not ended yet that its buffer holds, and the words of routes in use.
#[derive(Clone, Copy)]
struct Progress {
    held: usize,
    used: usize,
}

// Serves a line and writes what it prints.
fn answer<W: Write>(
    line: &[u8],
    routes: &mut [u32],
    used: usize,
    table: &mut [u8],
    out: &mut [u8],
    writer: &mut W,
) -> Result<Progress>
    requires { most_text (length table.old) ≤ length out.old }
    ensures progress { IfOk result (λ p. (p.held ≡ 0) × (state_of p.used routes.new table.new ≡ after_line (state_of used routes.old table.old) line.now)) }
    ensures routes { routes.new ≡ (after_line (state_of used routes.old table.old) line.now).routes }
    ensures table { table.new ≡ (after_line (state_of used routes.old table.old) line.now).table }
    ensures out { out.new ≡ laid out.old 0 (line_text (state_of used routes.old table.old) line.now) }
    ensures written { OnOk result (Appends (W.contents writer.old) (W.contents writer.new) (line_text (state_of used routes.old table.old) line.now)) }
{
    let served = lines::serve(line, routes, used, table, out);
    let printed = served.printed;
    writer
        .write_all(&out[..printed])
        .context("the output cannot be written")?;
    Ok(Progress {
        held: 0,
        used: served.used,
    })
}

// Serves the lines that end in a block, and holds what stands behind the last of them: what some input led to before, that input and the
// block lead to now, unless the output failed.
fn answer_block<W: Write>(
    block: &[u8],
    line: &mut [u8],
    routes: &mut [u32],
    table: &mut [u8],
    out: &mut [u8],
    start: Progress,
    writer: &mut W,
) -> Result<Progress>
    requires room { most_text (length table.old) ≤ length out.old }
    requires led { Led program_octets line.old start.held start.used routes.old table.old }
    ensures led { (input : List ℕ) → LedBy program_octets input line.old start.held start.used routes.old table.old → IfOk result (λ p. LedBy program_octets (input ++ block.now) line.new p.held p.used routes.new table.new) }
    ensures written { (input : List ℕ) → LedBy program_octets input line.old start.held start.used routes.old table.old → OnOk result (Appends (W.contents writer.old) (W.contents writer.new) (block_text (standing_after program_octets input) block.now)) }
{
    let mut at = 0;
    let mut progress = start;
    while at < block.len() {
        let part = lines::gather(&block[at..], line, progress.held);
        at += part.taken;
        progress.held = part.held;
        if part.ended {
            let whole = &line[..part.held];
            progress = answer(whole, routes, progress.used, table, out, writer)?;
        }
    }
    Ok(progress)
}

// Serves the last line, which has no LF, at the end of the input.
fn answer_rest<W: Write>(
    line: &[u8],
    routes: &mut [u32],
    table: &mut [u8],
    out: &mut [u8],
    last: Progress,
    writer: &mut W,
) -> Result<()>
    requires room { most_text (length table.old) ≤ length out.old }
    requires led { Led program_octets line.now last.held last.used routes.old table.old }
    ensures state { (input : List ℕ) → LedBy program_octets input line.now last.held last.used routes.old table.old → (routes.new ≡ (left_by program_octets input).routes) × (table.new ≡ (left_by program_octets input).table) }
    ensures written { (input : List ℕ) → LedBy program_octets input line.now last.held last.used routes.old table.old → OnOk result (Appends (W.contents writer.old) (W.contents writer.new) (end_text (standing_after program_octets input))) }
{
    let held = last.held;
    if held == 0 {
        return Ok(());
    }
    answer(&line[..held], routes, last.used, table, out, writer)?;
    Ok(())
}

// Reads the input block by block and serves its lines; since a proved loop has to end and nothing says that the input does, it makes no
// more turns than a number that no run uses up, as each but the last reads an octet.
fn run<R: Read, W: Write>(
    reader: &mut R,
    writer: &mut W,
    block: &mut [u8],
    line: &mut [u8],
    routes: &mut [u32],
    table: &mut [u8],
    out: &mut [u8],
) -> Result<()>
    requires block { 0 < length block.old }
    requires line { length line.old ≡ most_signs + 1 }
    requires state { state_of 0 routes.old table.old ≡ first_state program_octets }
    requires room { most_text (length table.old) ≤ length out.old }
    ensures state { OnOk result (IfSome (R.remaining reader.old) (λ input. length input < 2 ^ 64 - 1 → (routes.new ≡ (left_by program_octets input).routes) × (table.new ≡ (left_by program_octets input).table))) }
    ensures written { OnOk result (IfSome (R.remaining reader.old) (λ input. length input < 2 ^ 64 - 1 → Appends (W.contents writer.old) (W.contents writer.new) (output_of program_octets input))) }
{
    let mut progress = Progress { held: 0, used: 0 };
    for _turn in 0..u64::MAX {
        let count = reader.read(block).context("the input cannot be read")?;
        let ended = count == 0;
        if ended {
            return answer_rest(line, routes, table, out, progress, writer);
        }
        let read = &block[..count];
        progress = answer_block(read, line, routes, table, out, progress, writer)?;
    }
    Ok(())
}

// The buffers that the program works in.
fn main(rt: HostRuntime) -> Result<()> {
    let mut block = [0u8; BLOCK];
    let mut line = [0u8; LINE];
    let mut routes = [0u32; lines::MOST_WORDS];
    let mut table = [0u8; TABLE];
    let mut out = [0u8; TEXT];
    run(
        &mut rt.stdin(),
        &mut rt.stdout(),
        &mut block,
        &mut line,
        &mut routes,
        &mut table,
        &mut out,
    )
}
