// Reading a commit into lent lists (docs/FORMAT.md, "Commits" and "Numbers"; Rust: src/commit/decode.rs).
#![tactic(auto)]

ghost use Rattle.std.specs.Prelude.{◌≡◌, ◌+◌, ◌*◌, ◌<◌, ◌≤◌, length};
ghost use Rattle.commit_fields.specs.Headers.{heads};
ghost use Rattle.commit_read.specs.Stored.{stored, heads_stored};
ghost use Rattle.commit_read.specs.Read.{refused_read, done_read, commit_answer, commit_parents, commit_headers};

use commit_fields::{Found, Refusal, decide};
use extra_header::extra_at;
use ground::{FINE, Verdict};
use header::{CommitParts, HEADER_WIDTH, put_header};

// The answer: the verdict with the field that failed (0 where none did), the counts, and the parts. All are 0 on a refusal.
#[derive(Clone, Copy)]
pub struct CommitRead {
    pub verdict: Verdict,
    pub field: usize,
    pub parents: usize,
    pub headers: usize,
    pub parts: CommitParts,
}

// Where the ids of n parents start, stored from the front.
fn fill_parents(out: &mut [usize], n: usize, at: usize, h: usize)
    requires n_in_bounds { n ≤ length out.old }
    requires h_bound { at + n * (8 + 2 * h) < 18446744073709551616 }
    ensures { out.new ≡ stored h out.old 0 at n }
{
    let mut p = at;
    for i in 0..n {
        out[i] = p + 7;
        p += 8 + 2 * h;
    }
}

// The records of all extra headers from a place on, stored from the front.
fn fill_headers(s: &[u8], at: usize, out: &mut [usize])
    ensures { out.new ≡ heads_stored out.old 0 (heads s.now at) }
{
    let mut p = at;
    let mut n: usize = 0;
    loop {
        match extra_at(s, p) {
            None => {
                return;
            }
            Some((x, next)) => {
                put_header(out, n, x);
                p = next;
                n += 1;
            }
        }
    }
}

// A refusal as an answer.
fn refused(r: Refusal) -> CommitRead
    ensures { result ≡ refused_read r }
{
    CommitRead {
        verdict: r.verdict,
        field: r.field,
        parents: 0,
        headers: 0,
        parts: CommitParts {
            tree: 0,
            author_start: 0,
            author_end: 0,
            committer_start: 0,
            committer_end: 0,
            encoding: 0,
            encoding_start: 0,
            encoding_end: 0,
            message_start: 0,
            message_end: 0,
        },
    }
}

// What was found as an answer.
fn done(f: Found) -> CommitRead
    ensures { result ≡ done_read f }
{
    CommitRead {
        verdict: FINE,
        field: 0,
        parents: f.parents,
        headers: f.headers,
        parts: f.parts,
    }
}

// A commit into lent numbers: one for each parent, where its hex digits start, and five for each extra header.
pub fn read_commit(
    bytes: &[u8],
    h: usize,
    parents: &mut [usize],
    headers: &mut [usize],
) -> CommitRead
    ensures answer { result ≡ commit_answer bytes.now h parents.old headers.old }
    ensures parents { parents.new ≡ commit_parents bytes.now h parents.old headers.old }
    ensures headers { headers.new ≡ commit_headers bytes.now h parents.old headers.old }
{
    let room = headers.len() / HEADER_WIDTH;
    match decide(bytes, h, parents.len(), room) {
        Err(r) => refused(r),
        Ok(f) => {
            fill_parents(parents, f.parents, 6 + 2 * h, h);
            fill_headers(bytes, f.first, headers);
            done(f)
        }
    }
}
