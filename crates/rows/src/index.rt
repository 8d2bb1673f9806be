// The index of the clauses, beside their counts in q. It is a slice of words, as the clause table is: the run's contract (`LeftTallied`) speaks of such a list.
// The clauses stand in blocks of 64. A block has the words of their counts, and after them a word for each row, in which a clause has the bit of its place in the block:
// the clauses in play, those that no decision satisfies, those that name a redundant variable, and for each variable those that name it.
ghost use Rattle.std.specs.Prelude.{◌≡◌, ℕ, ◌+◌, ◌-◌, ◌*◌, ◌≤◌, ◌<◌, length};
ghost use Rattle.words.specs.Words.{has, meets};
ghost use Rattle.std.specs.Iterator.{at_most};
ghost use Rattle.rows.specs.Index.{blocks, tally_words, count_of, row_at, row_of, is_in, put_row, naming as Naming, both_at, NoneIn, Sought, Walks, coming, Comes, Emptied, Entered};

// How many clauses a block has, and how many words.
pub const BLOCK: usize = 64;

pub const WORDS: usize = 131;

// How many rows a block has.
pub const ROWS: usize = 67;

// A row: the clauses in play, those that no decision satisfies, those that name a redundant variable, and those that name the variable of this number.
#[derive(Clone, Copy)]
pub enum Row {
    Playing,
    Unsatisfied,
    Struck,
    Naming(u32),
}

impl Row {
    // Which of a block's rows it is.
    fn number(self) -> usize
        ensures { result ≡ row_of self }
    {
        match self {
            Row::Playing => 0,
            Row::Unsatisfied => 1,
            Row::Struck => 2,
            Row::Naming(v) => 3 + v as usize,
        }
    }
}

// A walk through the clauses of the m that are in the rows of two numbers, lowest first: the block to which it has come, and the bits of those there that it has still to
// come to.
#[derive(Clone, Copy)]
pub struct Walk<'a> {
    q: &'a [u64],
    m: usize,
    u: usize,
    w: usize,
    block: usize,
    left: u64,
}

// How many blocks m clauses begin.
pub fn blocks(m: usize) -> usize
    ensures { result ≡ blocks m }
{
    m.div_ceil(64)
}

// The counts of the clause of number i.
pub fn count(q: &[u64], i: usize) -> u64
    requires { tally_words (i + 1) ≤ length q.now }
    ensures { result ≡ count_of q.now i }
{
    q[131 * (i / 64) + i % 64]
}

// The word of block j in row u.
pub fn word(q: &[u64], j: usize, u: Row) -> u64
    requires { (131 * j + 131 ≤ length q.now) × (row_of u < 67) }
    ensures { result ≡ row_at q.now j (row_of u) }
{
    q[131 * j + 64 + u.number()]
}

// Whether the clause of number i is in row u.
pub fn is_in(q: &[u64], u: Row, i: usize) -> bool
    requires { (tally_words (i + 1) ≤ length q.now) × (row_of u < 67) }
    ensures { result ≡ is_in q.now (row_of u) i }
{
    words::bit_of(word(q, i / 64, u), (i % 64) as u32) == 1
}

// Puts the word of block j in row u.
pub fn put_row(q: &mut [u64], j: usize, u: Row, x: u64)
    requires { (131 * j + 131 ≤ length q.old) × (row_of u < 67) }
    ensures { q.new ≡ put_row q.old j (row_of u) x }
{
    q[131 * j + 64 + u.number()] = x;
}

// The clauses of block j that are in the rows of both numbers.
fn shared(q: &[u64], j: usize, u: usize, w: usize) -> u64
    requires { (131 * j + 131 ≤ length q.now) × (u < 67) × (w < 67) }
    ensures { result ≡ both_at q.now u w j }
{
    q[131 * j + 64 + u] & q[131 * j + 64 + w]
}

// A walk through the clauses in both rows, as in `for i in index::both(q, m, u, w)`.
pub fn both<'a>(q: &'a [u64], m: usize, u: Row, w: Row) -> Walk<'a>
    requires { (tally_words m ≤ length q.now) × (row_of u < 67) × (row_of w < 67) }
    ensures { Walks q.now m (row_of u) (row_of w) result × NoneIn q.now m (row_of u) (row_of w) 0 (coming result) }
{
    let u = u.number();
    let w = w.number();
    Walk {
        q,
        m,
        u,
        w,
        block: 0,
        left: if m == 0 { 0 } else { shared(q, 0, u, w) },
    }
}

// The block in which a walk goes on, and the clauses there that it has still to come to.
fn seek<'a>(s: Walk<'a>) -> Option<(usize, u64)>
    requires { Walks s.q.now s.m s.u s.w s }
    ensures { Sought s.entry result }
{
    if s.left != 0 {
        return Some((s.block, s.left));
    }
    for j in s.block + 1..blocks(s.m) {
        let x = shared(s.q, j, s.u, s.w);
        if x != 0 {
            return Some((j, x));
        }
    }
    None
}

impl<'a> Iterator for Walk<'a> {
    type Item = usize;

    ghost can_next = { λ s. Walks s.q.now s.m s.u s.w s };

    ghost next_gives = { λ s r t. Comes s r t };

    ghost remaining = { λ s. at_most (s.m - coming s) };

    fn next(&mut self) -> Option<usize> {
        let (block, left) = seek(*self)?;
        let i = 64 * block + words::lowest_var(left) as usize;
        if self.m <= i {
            return None;
        }
        self.block = block;
        self.left = words::rest_of(left);
        Some(i)
    }
}

// The clauses of block j that name one of the variables k.
pub fn naming(q: &[u64], j: usize, k: u64) -> u64
    requires { 131 * j + 131 ≤ length q.now }
    ensures { (b x : ℕ) → ((v : ℕ) → v < 64 → has (row_at q.now j (Naming v)) b ≡ has x v) → has result b ≡ meets x k }
{
    let mut all = 0;
    for v in words::members(k) {
        all |= word(q, j, Row::Naming(v));
    }
    all
}

// All rows of block j are empty.
pub fn clear(q: &mut [u64], j: usize)
    requires { 131 * j + 131 ≤ length q.old }
    ensures { Emptied q.old q.new j }
{
    for u in 0..ROWS {
        q[131 * j + 64 + u] = 0;
    }
}

// The clause of the bit is in the rows of these variables.
pub fn enter(q: &mut [u64], j: usize, bit: u64, vars: u64)
    requires { 131 * j + 131 ≤ length q.old }
    ensures { Entered q.old q.new j bit vars }
{
    for v in words::members(vars) {
        let u = Row::Naming(v);
        let before = word(q, j, u);
        put_row(q, j, u, before | bit);
    }
}
