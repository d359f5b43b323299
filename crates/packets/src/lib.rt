// Setup packets of USB 2.0: what an entry of a transcript becomes on the bus, and the entry that some bytes begin with. The values and indices are those of
// src/device.rs. Document 02, #107. One entry at a time; crate expansion has the loops.

#![tactic(auto)]

ghost use Rattle.std.specs.Prelude.{◌≡◌, ◌+◌, ◌≤◌, ◌<◌, cond, ◌&&◌, not, eqb, length, drop};
ghost use Rattle.std.proofs.lemmas.List.Edits.{sets};
ghost use Rattle.wire.specs.Bytes.{le_value};
ghost use Rattle.transcript.specs.Table.{is_read};
ghost use Rattle.packets.specs.Packets.{became, expands, w_index_of, is_demod, packets, packets_of, sent_by, setup, type_of, w_value_of};
ghost use Rattle.packets.specs.Heard.{heard_in, in_table, named, sync_in, heard_with};

use transcript::Entry;

// The read of page 0x0a, register 0x01, as a number of eight bytes, low byte first.
const SYNC: u64 = 0x0001_000a_0120_00c0;

fn is_read(k: u8) -> bool
    ensures { result ≡ is_read k }
{
    (k == transcript::I2C_READ) | (k == transcript::READ)
}

fn is_demod(k: u8) -> bool
    ensures { result ≡ is_demod k }
{
    (k == transcript::DEMOD) | (k == transcript::DEMOD16)
}

fn type_of(k: u8) -> u64
    ensures { (result ≡ type_of k) × (result < 256) }
{
    if is_read(k) { 0xc0 } else { 0x40 }
}

fn value_of(e: Entry) -> u64
    ensures { (result ≡ w_value_of e) × (result < 16777472) }
{
    if is_demod(e.kind) {
        return (e.address as u64) * 256 + 0x20;
    }
    if (e.kind == transcript::I2C_WRITE) | (e.kind == transcript::I2C_READ) {
        return e.target as u64;
    }
    e.address as u64
}

// The bit of the index that a write has.
fn write_bit(k: u8) -> u64
    ensures { (result ≡ cond (is_read k) 0 0x10) × (result ≤ 16) }
{
    if is_read(k) { 0 } else { 0x10 }
}

fn index_of(e: Entry) -> u64
    ensures { (result ≡ w_index_of e) × (result < 65536) }
{
    let write = write_bit(e.kind);
    if is_demod(e.kind) {
        return (e.target as u64) + write;
    }
    if (e.kind == transcript::I2C_WRITE) | (e.kind == transcript::I2C_READ) {
        return 0x600 + write;
    }
    (e.target as u64) * 256 + write
}

// The setup packet's eight bytes as a number.
fn setup_of(e: Entry) -> u64
    ensures { result ≡ le_value (setup e) }
{
    type_of(e.kind)
        + value_of(e) % 0x1_0000 * 0x1_0000
        + index_of(e) * 0x1_0000_0000
        + (e.n as u64) * 0x1_0000_0000_0000
}

// How many data bytes stand after the setup packet: a read has none.
fn sent_by(k: u8, n: u8) -> usize
    ensures { (result ≡ sent_by k n) × (result ≤ n) }
{
    if is_read(k) { 0 } else { n as usize }
}

// How many bytes the read of page 0x0a has after a transfer.
fn followed_by(k: u8, outcome: u8) -> usize
    ensures { (result ≡ cond (is_demod k && eqb outcome 0) 8 0) × (result ≤ 8) }
{
    if is_demod(k) & (outcome == 0) { 8 } else { 0 }
}

// A repeater entry as the demod write that src/device.rs makes of it; any other as it is.
fn became(e: Entry) -> Entry
    ensures { result ≡ became e }
{
    if e.kind != transcript::REPEATER {
        return e;
    }
    let value = if e.bytes[0] == 0 { 0x10 } else { 0x18 };
    Entry {
        kind: transcript::DEMOD,
        target: 1,
        n: 1,
        address: 1,
        bytes: [value, 0, 0, 0, 0, 0, 0, 0],
        ..e
    }
}

// Whether an entry has packets of its own: refusal 15 where it has not.
pub fn expands(e: Entry) -> bool
    ensures { result ≡ expands e }
{
    if is_demod(e.kind) {
        return (e.address <= 0xff) & (e.target <= 15);
    }
    if (e.kind == transcript::BLOCK)
        | (e.kind == transcript::BLOCK16)
        | (e.kind == transcript::READ)
    {
        return (e.target != 0) & (e.target != 6);
    }
    true
}

// How many bytes an entry becomes.
pub fn size(e: Entry) -> usize
    requires { e.n ≤ 8 }
    ensures { result ≡ length (packets_of e) }
{
    if e.kind == transcript::WAIT {
        return 0;
    }
    let t = became(e);
    8 + sent_by(t.kind, t.n) + followed_by(t.kind, t.outcome)
}

fn put_transfer(e: Entry, out: &mut [u8], at: usize)
    requires { (e.n ≤ 8)
        × (at + 8 + sent_by e.kind e.n + cond (is_demod e.kind && eqb e.outcome 0) 8 0 ≤ length out.old) }
    ensures { out.new ≡ sets out.old at (packets e) }
{
    let sent = sent_by(e.kind, e.n);
    let bytes = e.bytes;
    wire::put(out, at, setup_of(e), 8);
    wire::copy(out, at + 8, &bytes[0..sent]);
    wire::put(out, at + 8 + sent, SYNC, followed_by(e.kind, e.outcome));
}

// The packets of an entry, from `at`.
pub fn put(e: Entry, out: &mut [u8], at: usize)
    requires { (e.n ≤ 8) × (at + length (packets_of e) ≤ length out.old) }
    ensures { out.new ≡ sets out.old at (packets_of e) }
{
    if e.kind == transcript::WAIT {
        return;
    }
    put_transfer(became(e), out, at);
}

fn step(kind: u8, target: u8, n: u8, address: u16) -> Entry
    ensures { result ≡ Rattle.packets.specs.Heard.entry_named kind target n address }
{
    Entry {
        kind,
        outcome: 0,
        target,
        n,
        address,
        bytes: [0u8; 8],
    }
}

// The entry that a setup packet names, by its number. What is no setup packet names one too, with another number.
fn named(w: u64) -> Entry
    ensures { result ≡ named w }
{
    let write = w % 256 == 0x40;
    let value = (w / 0x1_0000 % 0x1_0000) as u16;
    let high = (w / 0x100_0000_0000 % 256) as u8;
    let n = (w / 0x1_0000_0000_0000 % 256) as u8;
    if high == 0 {
        let kind = if n == 1 {
            transcript::DEMOD
        } else {
            transcript::DEMOD16
        };
        let page = (w / 0x1_0000_0000 % 256 % 16) as u8;
        return step(kind, page, n, value / 256);
    }
    if high == 6 {
        let kind = if write {
            transcript::I2C_WRITE
        } else {
            transcript::I2C_READ
        };
        return step(kind, (value % 256) as u8, n, 0);
    }
    let kind = if !write {
        transcript::READ
    } else if n == 1 {
        transcript::BLOCK
    } else {
        transcript::BLOCK16
    };
    step(kind, high, n, value)
}

// Document 01's table: how many bytes a kind has.
fn in_table(k: u8, n: u8) -> bool
    ensures { result ≡ in_table k n }
{
    match k {
        transcript::REPEATER => (1 <= n) & (n <= 1),
        transcript::I2C_WRITE => (1 <= n) & (n <= 8),
        transcript::I2C_READ => (1 <= n) & (n <= 5),
        transcript::DEMOD => (1 <= n) & (n <= 1),
        transcript::DEMOD16 => (2 <= n) & (n <= 2),
        transcript::BLOCK => (1 <= n) & (n <= 1),
        transcript::BLOCK16 => (2 <= n) & (n <= 2),
        transcript::READ => (1 <= n) & (n <= 1),
        _ => (0 <= n) & (n <= 0),
    }
}

// Whether the bytes from `at` begin with the read of page 0x0a.
fn sync_at(s: &[u8], at: usize) -> bool
    requires { at ≤ length s.now }
    ensures { result ≡ sync_in (drop at s.now) }
{
    if s.len() - at < 8 {
        return false;
    }
    wire::eight(s, at) == SYNC
}

// How many bytes the read of page 0x0a has there, after a transfer of this kind.
fn sync_len(k: u8, s: &[u8], at: usize) -> usize
    requires { at ≤ length s.now }
    ensures { (result ≡ cond (is_demod k && sync_in (drop at s.now)) 8 0) × (result ≤ 8) }
{
    if is_demod(k) & sync_at(s, at) { 8 } else { 0 }
}

// An entry that packets begin with, and how many bytes its packets have.
#[derive(Clone, Copy)]
pub struct Heard {
    pub entry: Entry,
    pub size: usize,
}

// The entry with its data, which stand after its setup packet from `at`.
fn with_data(e: Entry, s: &[u8], at: usize, sent: usize) -> Heard
    requires { (sent ≤ 8) × (at + 8 + sent ≤ length s.now) }
    ensures { result ≡ heard_with e sent (drop at s.now) }
{
    let mut bytes = [0u8; 8];
    let end = at + 8 + sent;
    wire::copy(&mut bytes, 0, &s[at + 8..end]);
    let behind = sync_len(e.kind, s, end);
    Heard {
        entry: Entry {
            outcome: 0,
            bytes,
            ..e
        },
        size: 8 + sent + behind,
    }
}

// The entry that the bytes from `at` begin with.
pub fn hear(s: &[u8], at: usize) -> Option<Heard>
    requires { at ≤ length s.now }
    ensures { result ≡ heard_in (drop at s.now) }
{
    let left = s.len() - at;
    if left < 8 {
        return None;
    }
    let w = wire::eight(s, at);
    let e = named(w);
    let sent = sent_by(e.kind, e.n);
    if !(in_table(e.kind, e.n) & (setup_of(e) == w)) {
        return None;
    }
    if left < 8 + sent {
        return None;
    }
    Some(with_data(e, s, at, sent))
}
