// Replay of a tray log: which records of the night were faulty.
#![tactic(auto)]

ghost use Rattle.std.specs.Prelude.{◌≡◌, true, ◌&&◌, ◌+◌, ◌≤◌, eqb, leb, length, take, drop};
ghost use Rattle.octets.specs.Octets.{number};
ghost use Rattle.calendar.specs.Days.{real_day};
ghost use Rattle.tray.specs.Machine.{good_record, opens, loads, burns, done};
ghost use Rattle.tray.specs.Records.{action_of, entry_at};
ghost use Rattle.tray.specs.Answer.{faulty_of, replay_of, list_of};
ghost use Rattle.tray.specs.Listing.{stored};

use calendar::real_day;
use refusal::Refusal;

// What a record asks for.
#[derive(Clone, Copy)]
enum Action {
    // To open a tray for a day.
    Open,
    // To load an image.
    Load,
    // To burn a unit.
    Burn,
}

// A record of the log.
#[derive(Clone, Copy)]
struct Entry {
    // None for an octet that is no action's number.
    action: Option<Action>,
    unit: u8,
    // The two octets that are to be zero, as a number.
    padding: u16,
    day: u32,
}

// What the records so far leave.
#[derive(Clone, Copy)]
struct State {
    // The day of the open tray and that of the loaded image, 0 where there is none yet.
    tray: u32,
    image: u32,
    // For each unit number, whether that unit was burnt in this tray.
    marks: [bool; 41],
}

// Replays a log of records of 8 octets, and lists the numbers of the faulty ones. The list behind them stays; on a refusal all
// of it stays. A list as long as the log is filled in one pass, a shorter one after a pass that counts.
pub fn replay(log: &[u8], list: &mut [u64]) -> Result<usize, Refusal>
    ensures { (result ≡ replay_of log.now (length list.old)) × (list.new ≡ list_of log.now list.old) }
{
    let size = log.len();
    if size % 8 != 0 {
        return Err(Refusal::Argument);
    }
    let room = list.len();
    if size / 8 <= room {
        return Ok(run(log, list));
    }
    let faulty = run(log, &mut []);
    if room < faulty {
        return Err(Refusal::Short);
    }
    if faulty == 0 {
        return Ok(0);
    }
    Ok(run(log, list))
}

// Counts the faulty records, and lists the numbers of as many as the list has room for.
fn run(log: &[u8], list: &mut [u64]) -> usize
    ensures { (result ≡ length (faulty_of log.now)) × (list.new ≡ stored 0 list.old (faulty_of log.now)) }
{
    let mut state = State {
        tray: 0,
        image: 0,
        marks: [false; 41],
    };
    let mut faulty = 0;
    for next in 0..log.len() / 8 {
        let entry = entry_at(log, next * 8);
        if state.good(entry) {
            state.done(entry);
        } else {
            if faulty < list.len() {
                list[faulty] = next as u64;
            }
            faulty += 1;
        }
    }
    faulty
}

// The record that starts at an offset.
#[tactic(auto, unfolding(crate::specs::Records::entry_at))]
fn entry_at(log: &[u8], at: usize) -> Entry
    requires { at + 8 ≤ length log.now }
    ensures { result ≡ entry_at log.now at }
{
    Entry {
        action: Action::of(log[at]),
        unit: log[at + 1],
        padding: two(log, at + 2),
        day: four(log, at + 4),
    }
}

impl Action {
    #[tactic(auto, unfolding(crate::specs::Records::action_of))]
    fn of(octet: u8) -> Option<Action>
        ensures { result ≡ action_of octet }
    {
        match octet {
            1 => Some(Action::Open),
            2 => Some(Action::Load),
            3 => Some(Action::Burn),
            _ => None,
        }
    }
}

impl Entry {
    #[tactic(auto, unfolding(crate::specs::Machine::loads))]
    fn loads(self) -> bool
        ensures { result ≡ loads self }
    {
        self.unit == 0 && real_day(u64::from(self.day))
    }
}

impl State {
    // Whether a record is good. Each arm tests the padding: one test before the match would keep the compiler from looking at the
    // action's octet only once.
    #[tactic(auto, unfolding(crate::specs::Machine::good_record, crate::specs::Machine::allowed))]
    fn good(&self, entry: Entry) -> bool
        ensures { result ≡ good_record self.now entry }
    {
        let zero = entry.padding == 0;
        match entry.action {
            Some(Action::Open) => zero && self.opens(entry),
            Some(Action::Load) => zero && entry.loads(),
            Some(Action::Burn) => zero && self.burns(entry),
            None => false,
        }
    }

    #[tactic(auto, unfolding(crate::specs::Machine::opens, crate::specs::Machine::loads))]
    fn opens(&self, entry: Entry) -> bool
        ensures { result ≡ opens self.now entry }
    {
        entry.loads() && self.tray <= entry.day
    }

    #[tactic(auto, unfolding(crate::specs::Machine::burns))]
    fn burns(&self, entry: Entry) -> bool
        ensures { result ≡ burns self.now entry }
    {
        entry.day == 0
            && 1 <= self.tray
            && self.image == self.tray
            && 1 <= entry.unit
            && entry.unit <= 40
            && !self.marks[usize::from(entry.unit)]
    }

    // What a good record does.
    #[tactic(auto, unfolding(crate::specs::Machine::done, crate::specs::Machine::after))]
    fn done(&mut self, entry: Entry)
        requires { good_record self.old entry ≡ true }
        ensures { self.new ≡ done self.old entry }
    {
        match entry.action {
            Some(Action::Open) => {
                self.tray = entry.day;
                self.marks = [false; 41];
            }
            Some(Action::Load) => self.image = entry.day,
            Some(Action::Burn) => self.marks[usize::from(entry.unit)] = true,
            None => {}
        }
    }
}

// The numbers in two and in four octets that are there.
fn two(log: &[u8], at: usize) -> u16
    requires { at + 2 ≤ length log.now }
    ensures { result ≡ number (take 2 (drop at log.now)) }
{
    u16::from_be_bytes([log[at], log[at + 1]])
}

fn four(log: &[u8], at: usize) -> u32
    requires { at + 4 ≤ length log.now }
    ensures { result ≡ number (take 4 (drop at log.now)) }
{
    u32::from_be_bytes([log[at], log[at + 1], log[at + 2], log[at + 3]])
}
