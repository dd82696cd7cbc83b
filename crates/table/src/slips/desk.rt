// Slips are filed, looked up and settled.
ghost use Rattle.std.specs.Prelude.{◌≡◌, ℕ, ◌<◌, ◌≤◌, cond, length, replicate, slice_set, take};
ghost use Rattle.rules.specs.Book.{found};
ghost use Rattle.rules.specs.Slips.{no_sent, sent_at, out, vacant, carries, is_slip, seat, vacancies, file, filed};
ghost use Rattle.table.specs.Places.{Inside};
ghost use Rattle.table.specs.Tables.{slips_in};

use super::SlipsOut;
use rules::Sent;
use values::reports::Slip;

// What a place without a slip holds.
fn nothing() -> Sent
    ensures { result ≡ no_sent }
{
    Sent {
        slip: Slip::BLANK,
        id: 0,
    }
}

fn is_out(sent: &Sent) -> bool
    ensures { result ≡ out sent.now }
{
    0 < sent.slip.size
}

fn is_vacant(sent: &Sent) -> bool
    ensures { result ≡ vacant sent.now }
{
    !is_out(sent)
}

// A vacant place is one, for a sum over the places.
fn one(sent: &Sent) -> u32
    ensures value { result ≡ cond (vacant sent.now) 1 0 }
    ensures bound { result ≤ 1 }
{
    u32::from(is_vacant(sent))
}

fn has_number(number: u32, sent: &Sent) -> bool
    ensures { result ≡ is_slip number sent.now }
{
    sent.slip.number == number && is_out(sent)
}

fn is_of(id: u32, sent: &Sent) -> bool
    ensures { result ≡ carries id sent.now }
{
    sent.id == id && is_out(sent)
}

impl SlipsOut {
    pub fn new() -> SlipsOut
        ensures { slips_in result ≡ replicate 64 no_sent }
    {
        SlipsOut {
            places: [nothing(); 64],
            extent: 0,
        }
    }

    // The places up to the extent; no slip is out in another.
    fn used(&self) -> &[Sent]
        ensures { result.now ≡ take self.now.extent (slips_in self.now) }
    {
        &self.places[..self.extent]
    }

    // The slip at a place; searches give places.
    pub fn slip(&self, i: usize) -> Slip
        requires { i < 64 }
        ensures { result ≡ (sent_at (slips_in self.now) i).slip }
    {
        self.places[i].slip
    }

    // The place of the slip with this number.
    pub fn find(&self, number: u32) -> Option<usize>
        ensures found { result ≡ seat (is_slip number) (slips_in self.now) (length (slips_in self.now)) }
        ensures inside { Inside result }
    {
        self.used().iter().position(|sent| has_number(number, sent))
    }

    // Whether a slip of the order with this id is out.
    pub fn carries(&self, id: u32) -> bool
        ensures { result ≡ found (seat (carries id) (slips_in self.now) (length (slips_in self.now))) }
    {
        self.used().iter().any(|sent| is_of(id, sent))
    }

    // How many more slips can be out.
    pub fn vacancies(&self) -> u32
        ensures { result ≡ vacancies (slips_in self.now) }
    {
        self.places.iter().map(|sent| one(sent)).sum()
    }

    fn vacancy(&self) -> Option<usize>
        ensures found { result ≡ seat vacant (slips_in self.now) (length (slips_in self.now)) }
        ensures inside { Inside result }
    {
        self.places.iter().position(|sent| is_vacant(sent))
    }

    // A slip of the order with this id goes out; where 64 are out already it is not filed.
    #[tactic(auto, unfolding(rules::specs::Slips::file))]
    pub fn file(&mut self, id: u32, slip: Slip)
        ensures { slips_in self.new ≡ file id slip (slips_in self.old) }
    {
        if let Some(i) = self.vacancy() {
            self.places[i] = Sent { slip, id };
            self.extent = self.extent.max(i + 1);
        }
    }

    // All of these go out, in their order.
    pub fn file_all(&mut self, id: u32, slips: &[Slip])
        ensures { slips_in self.new ≡ filed id slips.now (slips_in self.old) }
    {
        for slip in slips {
            self.file(id, *slip);
        }
    }

    // Leaves the vacant places at its end out of the extent.
    fn draw_in(&mut self)
        ensures { slips_in self.new ≡ slips_in self.old }
    {
        self.extent = self
            .used()
            .iter()
            .rposition(|sent| is_out(sent))
            .map_or(0, |i| i + 1);
    }

    // The slip at a place is settled, and its place is free.
    pub fn settle(&mut self, i: usize)
        requires { i < 64 }
        ensures { slips_in self.new ≡ slice_set (slips_in self.old) i no_sent }
    {
        self.places[i] = nothing();
        self.draw_in();
    }
}
