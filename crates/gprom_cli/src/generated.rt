//! Scripts that are generated, and questions about them: a workload of transactions that overlap.

ghost use Rattle.std.specs.Prelude.{◌≡◌, ◌≤◌, ◌++◌, IfOk, OnOk};
ghost use Rattle.gprom_cli.specs.Generated.{closing_lines, generated_questions, generated_script, pieces_line, pieces_lines, replay_line, round_lines};

use gp_base::{NoMemory, append_all};
use itoa::Buffer;
use std::alloc::Global;

/// The greatest number of rounds.
pub const MAX_ROUNDS: u32 = 400;

/// The first lines of the script.
const OPENING: &[u8] = b"s1: CREATE TABLE acct (id INT, owner TEXT, bal INT)
s1: CREATE TABLE moves (src INT, dst INT, amt INT)
s1: BEGIN
s1: INSERT INTO acct VALUES (1, 'o1', 100), (2, 'o2', 100), (3, 'o3', 100), (4, 'o4', 100), (5, 'o5', 100), (6, 'o6', 100), (7, 'o7', 100), (8, 'o8', 100), (9, 'o9', 100), (10, 'o10', 100)
s1: COMMIT
";

/// Appends the lines of a round.
fn append_round(round: u32, out: &mut Vec<u8>) -> Result<(), NoMemory>
    requires { round ≤ MAX_ROUNDS }
    ensures { OnOk result (out.new.items ≡ out.old.items ++ pieces_lines (round_lines round)) }
{
    let mut buffers = (Buffer::new(), Buffer::new(), Buffer::new());
    let source = buffers.0.format(round % 10 + 1).as_bytes();
    let destination = buffers.1.format(3 * round % 10 + 1).as_bytes();
    let amount = buffers.2.format(round % 7 + 1).as_bytes();
    append_all(
        out,
        &[
            b"s2: BEGIN\ns3: BEGIN\ns2: UPDATE acct SET bal = bal - ",
            amount,
            b" WHERE id = ",
            source,
            b"\ns3: UPDATE acct SET bal = bal + ",
            amount,
            b" WHERE id = ",
            destination,
            b"\ns2: INSERT INTO moves VALUES (",
            source,
            b", ",
            destination,
            b", ",
            amount,
            b")\ns2: COMMIT\ns3: COMMIT\n",
        ],
    )
}

/// The script of this many rounds, from 1 to [`MAX_ROUNDS`].
pub fn generate_script(alloc: Global, rounds: u32) -> Result<Vec<u8>, NoMemory>
    requires { rounds ≤ MAX_ROUNDS }
    ensures { IfOk result (λ script. script.items ≡ generated_script rounds) }
{
    let mut script = Vec::from_slice(alloc, OPENING)?;
    let mut round = 0;
    while round < rounds {
        round += 1;
        append_round(round, &mut script)?;
    }
    Ok(script)
}

/// Appends the questions about the last version.
fn append_closing(last: u32, out: &mut Vec<u8>) -> Result<(), NoMemory>
    ensures { OnOk result (out.new.items ≡ out.old.items ++ pieces_lines (closing_lines last)) }
{
    let mut buffer = Buffer::new();
    let last = buffer.format(last).as_bytes();
    append_all(
        out,
        &[
            b"PROVENANCE OF AS OF ",
            last,
            b" SELECT * FROM acct\nVALUE IN COUNT OF AS OF ",
            last,
            b" SELECT x.owner FROM acct x, moves m WHERE x.id = m.src\n",
        ],
    )
}

/// Appends the question about a transaction.
fn append_replay(t: u32, out: &mut Vec<u8>) -> Result<(), NoMemory>
    ensures { OnOk result (out.new.items ≡ out.old.items ++ pieces_line (replay_line t)) }
{
    let mut buffer = Buffer::new();
    let t = buffer.format(t).as_bytes();
    append_all(out, &[b"REENACT ", t, b" COMMIT SELECT * FROM acct\n"])
}

/// The questions about these transactions and the last version.
pub fn generate_questions(alloc: Global, committed: &[u32], last: u32) -> Result<Vec<u8>, NoMemory>
    ensures { IfOk result (λ questions. questions.items ≡ generated_questions committed.now last) }
{
    let mut questions = Vec::new(alloc);
    for t in committed {
        append_replay(*t, &mut questions)?;
    }
    append_closing(last, &mut questions)?;
    Ok(questions)
}
