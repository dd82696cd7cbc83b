// A board over 240 bytes that the host lends.
ghost use Rattle.std.specs.Prelude.{◌≡◌, ℕ, ◌+◌, ◌-◌, ◌*◌, ◌%◌, ◌<◌, ◌≤◌, List, length, replicate, Ok, Err, ◌≢◌, slice_index};
ghost use Rattle.market.specs.declared.board.Quote.{Quote};
ghost use Rattle.market.specs.Packing.{word, quote_at, unpacked, length_unpacked, word_bytes, record_bytes, packed, overwritten, told_bytes};
ghost use Rattle.market.specs.Quotes.{absent, told};

use super::board::{Bids, Board, Offers, Quote, best, place};
use super::host::whole;
use std::array;

// How many bytes fifteen records take.
pub const BOARD_BYTES: usize = 240;

// Why memory is refused as a board.
#[derive(Clone, Copy, PartialEq, Eq, Debug)]
pub enum BoardFault {
    // A board takes 240 bytes, and so many were found.
    Length { found: usize },
}

// Fifteen quotes in the host's memory.
#[derive(Drop)]
pub struct PackedBoard<'a> {
    bytes: &'a mut [u8; 240],
}

impl<'a> PackedBoard<'a> {
    // A new board in memory of any length, which is tested first: any length but 240 is refused, and nothing written.
    pub fn new(memory: &'a mut [u8]) -> Result<PackedBoard<'a>, BoardFault>
        ensures { elim result [ Ok b ↦ (length memory.old ≡ 240) × (b.bytes.now ≡ replicate 240 0) × (b.bytes.ghost_name ≡ memory.entry.ghost_name) | Err e ↦ (length memory.old ≢ 240) × (e ≡ BoardFault.Length (length memory.old)) ] }
    {
        let found = memory.len();
        if found != BOARD_BYTES {
            return Err(BoardFault::Length { found });
        }
        Ok(PackedBoard::on(whole(memory)))
    }

    // A new board in an array of the right length: all fifteen absent, which is 240 zero bytes.
    pub fn on(bytes: &'a mut [u8; 240]) -> PackedBoard<'a>
        ensures absent { unpacked result.bytes.now ≡ replicate 15 absent }
        ensures bytes { result.bytes.now ≡ replicate 240 0 }
        ensures packed { result.bytes.now ≡ packed (replicate 15 absent) }
        ensures lender { result.bytes.ghost_name ≡ bytes.entry.ghost_name }
    {
        *bytes = [0; 240];
        PackedBoard { bytes }
    }
}

impl<'a> Board for PackedBoard<'a> {
    ghost quotes = { λ s. unpacked s.bytes.now };

    ghost fifteen = { λ s. length_unpacked s.bytes.now };

    // Besides the quotes it pins every byte, and keeps the lender's name, so that who lent an array learns what it holds.
    fn tell(&mut self, exchange: u32, quote: Quote)
        ensures quotes { unpacked self.new.bytes.now ≡ told (unpacked self.old.bytes.now) exchange quote }
        ensures bytes { self.new.bytes.now ≡ told_bytes self.old.bytes.now exchange quote }
        ensures packed { (qs : List Quote) → length qs ≡ 15 → self.old.bytes.now ≡ packed qs → self.new.bytes.now ≡ packed (told qs exchange quote) }
        ensures lender { self.new.bytes.ghost_name ≡ self.old.bytes.ghost_name }
    {
        if let Some(i) = place(exchange) {
            put_quote(&mut *self.bytes, 16 * i, quote);
        }
    }

    fn quote(&self, exchange: u32) -> Quote {
        match place(exchange) {
            Some(i) => get_quote(&*self.bytes, 16 * i),
            None => Quote::ABSENT,
        }
    }

    fn best_bid(&self) -> (u32, u64) {
        best::<Bids>(&unpack(&*self.bytes))
    }

    fn best_offer(&self) -> (u32, u64) {
        best::<Offers>(&unpack(&*self.bytes))
    }
}

fn unpack(bytes: &[u8; 240]) -> [Quote; 15]
    ensures { result ≡ unpacked bytes.now }
{
    array::from_fn(|i| get_quote(bytes, 16 * i))
}

fn get_word(bytes: &[u8], at: usize) -> u32
    requires { at + 4 ≤ length bytes.now }
    ensures { result ≡ word bytes.now at }
{
    u32::from_be_bytes([bytes[at], bytes[at + 1], bytes[at + 2], bytes[at + 3]])
}

fn get_quote(bytes: &[u8], at: usize) -> Quote
    requires { at + 16 ≤ length bytes.now }
    ensures { result ≡ quote_at bytes.now at }
{
    Quote {
        bid: get_word(bytes, at),
        bid_size: get_word(bytes, at + 4),
        offer: get_word(bytes, at + 8),
        offer_size: get_word(bytes, at + 12),
    }
}

fn put_word(bytes: &mut [u8], at: usize, n: u32)
    requires { at + 4 ≤ length bytes.old }
    ensures there { word bytes.new at ≡ n }
    ensures before { (k : ℕ) → k < at → slice_index bytes.new k ≡ slice_index bytes.old k }
    ensures after { (k : ℕ) → at + 4 ≤ k → slice_index bytes.new k ≡ slice_index bytes.old k }
    ensures exact { bytes.new ≡ overwritten bytes.old at (word_bytes n) }
{
    let [a, b, c, d] = n.to_be_bytes();
    bytes[at] = a;
    bytes[at + 1] = b;
    bytes[at + 2] = c;
    bytes[at + 3] = d;
}

fn put_quote(bytes: &mut [u8], at: usize, quote: Quote)
    requires { at + 16 ≤ length bytes.old }
    ensures there { quote_at bytes.new at ≡ quote }
    ensures before { (k : ℕ) → k < at → slice_index bytes.new k ≡ slice_index bytes.old k }
    ensures after { (k : ℕ) → at + 16 ≤ k → slice_index bytes.new k ≡ slice_index bytes.old k }
    ensures exact { bytes.new ≡ overwritten bytes.old at (record_bytes quote) }
{
    put_word(bytes, at, quote.bid);
    put_word(bytes, at + 4, quote.bid_size);
    put_word(bytes, at + 8, quote.offer);
    put_word(bytes, at + 12, quote.offer_size);
}
