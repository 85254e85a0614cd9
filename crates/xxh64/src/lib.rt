// XXH64 with seed 0.
#![tactic(auto)]

ghost use Rattle.std.specs.Prelude.{◌≡◌, ℕ, ◌+◌, ◌*◌, ◌/◌, ◌%◌, ◌<◌, ◌≤◌, length};
ghost use Rattle.xxh64.specs.Hash.{mul64, rotl64, first_lanes, round_of, stripe_of, Done, merge_of, converge_of};
ghost use Rattle.xxh64.specs.Hash.{mix8_of, mix4_of, mix1_of, tail_of, rest_of, avalanche_of, xxh64 as hash_xxh64};

const P1: u64 = 0x9E3779B185EBCA87;

const P2: u64 = 0xC2B2AE3D27D4EB4F;

const P3: u64 = 0x165667B19E3779F9;

const P4: u64 = 0x85EBCA77C2B2AE63;

const P5: u64 = 0x27D4EB2F165667C5;

// The four running lanes, how far the input is read, and the input's length.
#[derive(Clone, Copy)]
struct State {
    lanes: [u64; 4],
    at: usize,
    len: usize,
}

// a * b, modulo 2^64. A rule of the project names the multiplication and the rotation as helpers of the rounds.
pub fn mul(a: u64, b: u64) -> u64
    ensures { result ≡ mul64 a b }
{
    a.wrapping_mul(b)
}

// x with its 64 bits rotated to the left by n.
fn rotl(x: u64, n: u32) -> u64
    requires { (0 < n) × (n < 64) }
    ensures { result ≡ rotl64 x n }
{
    x.rotate_left(n)
}

// Step 1: the lanes at the start.
fn start(len: usize) -> State
    ensures { (result.lanes ≡ first_lanes) × (result.at ≡ 0) × (result.len ≡ len) }
{
    State {
        lanes: [P1.wrapping_add(P2), P2, 0, 0u64.wrapping_sub(P1)],
        at: 0,
        len,
    }
}

// Step 2: a lane takes in 8 bytes.
fn round(acc: u64, w: u64) -> u64
    ensures { result ≡ round_of acc w }
{
    mul(rotl(acc.wrapping_add(mul(w, P2)), 31), P1)
}

// Step 2: each lane takes in its 8 bytes of one stripe.
fn stripe(st: State, s: &[u8]) -> State
    requires { st.at + 32 ≤ length s.now }
    ensures { (result.lanes ≡ stripe_of s.now st.at st.lanes) × (result.at ≡ st.at + 32) × (result.len ≡ st.len) }
{
    let at = st.at;
    let v = st.lanes;
    let a = round(v[0], words::read_le8(s, at));
    let b = round(v[1], words::read_le8(s, at + 8));
    let c = round(v[2], words::read_le8(s, at + 16));
    let d = round(v[3], words::read_le8(s, at + 24));
    State {
        lanes: [a, b, c, d],
        at: at + 32,
        len: st.len,
    }
}

// Step 2: every whole stripe.
fn stripes(s: &[u8]) -> State
    requires { 32 ≤ length s.now }
    ensures { Done s.now result.lanes result.at result.len }
{
    let mut st = start(s.len());
    for _ in 0..s.len() / 32 {
        st = stripe(st, s);
    }
    st
}

// Step 3: the accumulator takes in a lane.
fn merge(acc: u64, v: u64) -> u64
    ensures { result ≡ merge_of acc v }
{
    mul(acc ^ round(0, v), P1).wrapping_add(P4)
}

// Step 3: the four lanes become one accumulator.
fn converge(st: State) -> u64
    ensures { result ≡ converge_of st.lanes }
{
    let v = st.lanes;
    let sum = rotl(v[0], 1)
        .wrapping_add(rotl(v[1], 7))
        .wrapping_add(rotl(v[2], 12))
        .wrapping_add(rotl(v[3], 18));
    merge(merge(merge(merge(sum, v[0]), v[1]), v[2]), v[3])
}

// Step 5: the accumulator takes in 8 bytes.
fn mix8(acc: u64, w: u64) -> u64
    ensures { result ≡ mix8_of acc w }
{
    mul(rotl(acc ^ round(0, w), 27), P1).wrapping_add(P4)
}

// Step 5: 4 bytes.
fn mix4(acc: u64, w: u64) -> u64
    ensures { result ≡ mix4_of acc w }
{
    mul(rotl(acc ^ mul(w, P1), 23), P2).wrapping_add(P3)
}

// Step 5: a byte.
fn mix1(acc: u64, w: u64) -> u64
    ensures { result ≡ mix1_of acc w }
{
    mul(rotl(acc ^ mul(w, P5), 11), P1)
}

// Step 5: n numbers of SIZE bytes, one after the other.
fn tail<const SIZE: usize, F: Fn(u64, u64) -> u64>(
    s: &[u8],
    base: usize,
    n: usize,
    mix: F,
    acc0: u64,
) -> u64
    requires within { (base + SIZE * n ≤ length s.now) × (SIZE ≤ 8) }
    requires callable { F.IsAlwaysCallable mix }
    ensures { (m : ℕ → ℕ → ℕ) → ((acc w r : ℕ) → F.post mix acc w r → r ≡ m acc w) → result ≡ tail_of m SIZE s.now base acc0 n }
{
    let mut acc = acc0;
    for k in 0..n {
        acc = mix(acc, words::read_le(s, base + SIZE * k, SIZE));
    }
    acc
}

// Step 6: the final mix.
fn avalanche(acc: u64) -> u64
    ensures { result ≡ avalanche_of acc }
{
    let a = mul(acc ^ (acc >> 33), P2);
    let b = mul(a ^ (a >> 29), P3);
    b ^ (b >> 32)
}

// Steps 5 and 6, on what is left after the stripes, which end at base. Inlined: short inputs are hashed faster so.
#[inline(always)]
fn finish(s: &[u8], base: usize, acc: u64) -> u64
    requires { base ≡ length s.now / 32 * 32 }
    ensures { result ≡ avalanche_of (rest_of s.now base (length s.now % 32) acc) }
{
    let r = s.len() % 32;
    let acc8 = tail::<8, _>(s, base, r / 8, mix8, acc);
    let acc4 = tail::<4, _>(s, base + r / 8 * 8, r % 8 / 4, mix4, acc8);
    let acc1 = tail::<1, _>(s, base + r / 4 * 4, r % 4, mix1, acc4);
    avalanche(acc1)
}

// The hash of s. The sums with the length are step 4.
pub fn xxh64(s: &[u8]) -> u64
    ensures { result ≡ hash_xxh64 s.now }
{
    if s.len() < 32 {
        finish(s, 0, P5.wrapping_add(s.len() as u64))
    } else {
        let st = stripes(s);
        let at = st.at;
        let len = st.len;
        finish(s, at, converge(st).wrapping_add(len as u64))
    }
}
