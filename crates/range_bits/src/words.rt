//! Words of 64 places each: the next used or free place, and making places used or free.
ghost use Rattle.std.specs.Prelude.{◌≡◌, ℕ, ◌+◌, ◌-◌, ◌*◌, ◌/◌, ◌^◌, ◌<◌, ◌≤◌, ◌&&◌, ◌==◌, nat_le, nat_lt, not, length, if◌then◌else◌};
ghost use Rattle.range_bits.specs.Fills.{IsEnd, StaysUsed};
ghost use Rattle.range_bits.specs.Ranges.{with_places};
ghost use Rattle.range_bits.specs.Words.{is_one, is_marked, row_of, IsNext};

/// The first bit from `low` on that is 1, or that is 0; 64 where there is none.
pub fn next_bit(word: u64, low: u32, used: bool) -> u32
    requires { low < 64 }
    ensures behind { low ≤ result }
    ensures within { result ≤ 64 }
    ensures before { (k : ℕ) → low ≤ k → k < result → is_one word k ≡ not used }
    ensures there { result < 64 → is_one word result ≡ used }
{
    let seen = if used { word } else { !word };
    (seen & (u64::MAX << low)).trailing_zeros()
}

/// The first place from `from` on that is used, or that is free; the number of places where there is none.
pub fn next_place(words: &[u64], from: usize, used: bool) -> usize
    requires fits { 64 * length words.now < 2 ^ 32 }
    requires inside { from ≤ 64 * length words.now }
    ensures next { IsNext (row_of words.now) from used result }
    ensures inside { result ≤ 64 * length words.now }
{
    let mut low = (from % 64) as u32;
    for index in from / 64..words.len() {
        let bit = next_bit(words[index], low, used);
        if bit < 64 {
            return index * 64 + bit as usize;
        }
        low = 0;
    }
    words.len() * 64
}

/// Where the last bit below `high` ends that is 1, or that is 0; 0 where there is none.
pub fn end_bit(word: u64, high: u32, used: bool) -> u32
    requires some { 0 < high }
    requires within { high ≤ 64 }
    ensures within { result ≤ high }
    ensures behind { (k : ℕ) → result ≤ k → k < high → is_one word k ≡ not used }
    ensures there { 0 < result → is_one word (result - 1) ≡ used }
{
    let seen = if used { word } else { !word };
    64 - (seen & (u64::MAX >> (64 - high))).leading_zeros()
}

/// Where the last place before a place ends that is used, or that is free; 0 where there is none.
pub fn end_place(words: &[u64], before: usize, used: bool) -> usize
    requires fits { 64 * length words.now < 2 ^ 32 }
    requires inside { before ≤ 64 * length words.now }
    ensures { IsEnd (row_of words.now) before used result }
{
    let mut end = before;
    while end > 0 {
        let index = (end - 1) / 64;
        let bit = end_bit(words[index], (end - index * 64) as u32, used);
        if bit > 0 {
            return index * 64 + bit as usize;
        }
        end = index * 64;
    }
    0
}

/// The bits below a number of bits.
pub fn ones(bits: u32) -> u64
    requires { bits ≤ 64 }
    ensures { result ≡ 2 ^ bits - 1 }
{
    if bits == 64 {
        u64::MAX
    } else {
        (1 << bits) - 1
    }
}

/// A word whose bits from `low` up to `high` are made 1, or 0.
pub fn with_bits(word: u64, low: u32, high: u32, used: bool) -> u64
    requires order { low ≤ high }
    requires within { high ≤ 64 }
    ensures { (k : ℕ) → k < 64 → is_one result k
        ≡ (if nat_le low k && nat_lt k high then used else is_one word k) }
{
    let mask = ones(high) - ones(low);
    if used { word | mask } else { word & !mask }
}

/// A word one bit of which is made 1, or 0.
#[tactic(auto, using(crate::proofs::BitFacts::used_bit, crate::proofs::BitFacts::free_bit))]
pub fn with_bit(word: u64, bit: u32, used: bool) -> u64
    requires { bit < 64 }
    ensures { (k : ℕ) → k < 64 → is_one result k ≡ (if k == bit then used else is_one word k) }
{
    let mask = 1 << bit;
    if used { word | mask } else { word & !mask }
}

/// Makes the places from `start` up to `end` used, or free, all of which are in one word.
fn set_in_word(words: &mut [u64], start: usize, end: usize, used: bool)
    requires fits { 64 * length words.old < 2 ^ 32 }
    requires order { start < end }
    requires word { end ≤ 64 * (start / 64) + 64 }
    requires inside { end ≤ 64 * length words.old }
    ensures places { row_of words.new ≡ with_places (row_of words.old) start (end - start) used }
    ensures len { length words.new ≡ length words.old }
{
    let index = start / 64;
    let low = (start % 64) as u32;
    let high = (end - index * 64) as u32;
    words[index] = with_bits(words[index], low, high, used);
}

/// Makes the places from `start` up to `end` used, or free.
pub fn set_places(words: &mut [u64], start: usize, end: usize, used: bool)
    requires fits { 64 * length words.old < 2 ^ 32 }
    requires order { start ≤ end }
    requires inside { end ≤ 64 * length words.old }
    ensures places { row_of words.new ≡ with_places (row_of words.old) start (end - start) used }
    ensures len { length words.new ≡ length words.old }
{
    if start == end {
        return;
    }
    if (end - 1) / 64 == start / 64 {
        set_in_word(words, start, end, used);
        return;
    }
    for index in start / 64..end.div_ceil(64) {
        let low = start.saturating_sub(index * 64) as u32;
        let high = (end - index * 64).min(64) as u32;
        words[index] = with_bits(words[index], low, high, used);
    }
}

/// Makes a place used, or free.
pub fn set_place(words: &mut [u64], place: usize, used: bool)
    requires fits { 64 * length words.old < 2 ^ 32 }
    requires inside { place < 64 * length words.old }
    ensures places { row_of words.new ≡ with_places (row_of words.old) place 1 used }
    ensures len { length words.new ≡ length words.old }
{
    let index = place / 64;
    words[index] = with_bit(words[index], (place % 64) as u32, used);
}

/// Frees those places of `count` words, from word `first` on, that are free in other words.
pub fn keep_used(words: &mut [u64], other: &[u64], first: usize, count: usize)
    requires fits { 64 * length words.old < 2 ^ 32 }
    requires inside { first + count ≤ length words.old }
    requires other { first + count ≤ length other.now }
    ensures stays { StaysUsed (row_of words.old) (row_of other.now) (row_of words.new) (64 * first) (64 * (first + count)) }
    ensures len { length words.new ≡ length words.old }
{
    for index in first..first + count {
        words[index] &= other[index];
    }
}
