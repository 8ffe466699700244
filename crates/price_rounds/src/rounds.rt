//! Prices, found by rounds in which a case's strikes are charged more where the least way strikes a
//! pitch more than four times, and less where it doesn't. Many prices come to the same sum from the
//! beginning on. Those that are raised as far as this sum allows tell more of the later part of an
//! exercise, where most pitches were struck four times already. No clause speaks of prices: any are
//! fair once they are capped.

use crate::ways::{Notes, Step, Ways};
use fux_pitch::Memory;
use penalty_sheet::{Sheet, weight};
use priced_floors::{CASES, Charges, PITCHES, Prices, SCALE, Summit};
use std::alloc::Global;

/// How many rounds there are at most over a web, for all cases together.
pub const ROUNDS: usize = 300;

/// How many there are at most over a larger web, from the prices of the first one on.
pub const MORE_ROUNDS: usize = 100;

/// How far above the sum the aim is at first, and where prices are known already.
const FIRST_AIM: i64 = 64;

const LATER_AIM: i64 = 16;

/// Prices are worked in so many parts of a part.
const FINE: i64 = 256;

/// How many rounds may bring nothing before the aim is lowered.
const PATIENCE: u32 = 8;

/// How many rounds look for the prices of the later part of a case.
const LATER_ROUNDS: usize = 100;

/// How far above the least sum a case's may be whose prices are sought for a later part.
const FAR_ABOVE: i64 = 128;

/// How many strikes of a pitch cost nothing.
const FREE: i64 = 4;

/// Into how many parts the way from prices to others is divided.
const PARTS: i64 = 16;

const PARTS_SHIFT: u32 = 4;

/// How many prices a case has: one for each pitch of each of four voices.
const WIDTH: usize = 4 * PITCHES;

/// What is known of a case: its prices, the best so far, which way they went, the sum by the best
/// ones, and how far above it the aim is.
#[derive(Drop)]
struct Bid {
    prices: Vec<i64>,
    best: Vec<i64>,
    way: Vec<i64>,
    sum: i64,
    aim: i64,
    stalled: u32,
    is_done: bool,
}

/// What a column is charged in a case, `NONE` where it has a note above the case, and whether it has
/// one of the case's keys.
#[derive(Clone, Copy)]
struct Toll {
    sum: i64,
    reaches: bool,
}

/// What is worked in a round: what each column is charged; the least sums from the nodes to the end,
/// where the case's keys were reached and where they weren't; and how often the least way strikes
/// each pitch.
#[derive(Drop)]
struct Round {
    tolls: Vec<Toll>,
    sums: Vec<i64>,
    strikes: Vec<i64>,
}

/// No way leads to the end.
const NONE: i64 = 1 << 50;

/// A number of a list, or another where it has none.
#[inline]
fn number_or(numbers: &[i64], i: usize, otherwise: i64) -> i64 {
    match numbers.get(i) {
        Some(number) => *number,
        None => otherwise,
    }
}

/// The price of a place in whole parts.
#[inline]
fn whole(price: i64) -> i64 {
    price.wrapping_add(FINE / 2) >> 8
}

/// The number of a voice's pitch among a case's prices.
#[inline]
fn index_of(v: usize, place: u8) -> usize {
    v.wrapping_mul(PITCHES)
        .wrapping_add(place as usize)
        .wrapping_sub(1)
}

/// What a column is charged in a case by some prices.
fn toll_of(notes: &Notes, summit: &Summit, prices: &[i64]) -> Toll {
    let mut sum = 0i64;
    if let Some(high) = summit.high {
        if notes.key > high {
            return Toll {
                sum: NONE,
                reaches: false,
            };
        }
        if notes.key == high {
            sum = i64::from(summit.charge);
        }
    }
    for v in 0..4usize {
        let place = notes.places[v];
        if place > 0 {
            sum = sum.wrapping_add(whole(number_or(prices, index_of(v, place), 0)));
        }
    }
    Toll {
        sum,
        reaches: summit.low == 0 || notes.key >= summit.low,
    }
}

/// The steps of a node: from one number up to another.
fn steps_of(ways: &Ways, node: usize) -> (usize, usize) {
    let first = match ways.first.get(node) {
        Some(first) => *first as usize,
        None => 0,
    };
    let end = match ways.first.get(node.wrapping_add(1)) {
        Some(end) => *end as usize,
        None => ways.steps.len(),
    };
    (first, end)
}

impl Round {
    /// Room for the sums of the ways through a web.
    fn new(alloc: Global, ways: &Ways) -> Result<Round, Memory> {
        let none = Toll {
            sum: NONE,
            reaches: false,
        };
        Ok(Round {
            tolls: vec![in alloc; none; ways.notes.len()]?,
            sums: vec![in alloc; NONE; ways.first.len().wrapping_mul(2)]?,
            strikes: vec![in alloc; 0i64; WIDTH]?,
        })
    }

    /// The sum behind a step, from where the case's keys were reached or weren't.
    #[inline]
    fn sum_behind(&self, step: &Step, reached: bool) -> i64 {
        let Some(toll) = self.tolls.get(step.choice as usize) else {
            return NONE;
        };
        let reached = reached || toll.reaches;
        let node = (step.to as usize)
            .wrapping_mul(2)
            .wrapping_add(reached as usize);
        i64::from(step.cost)
            .wrapping_mul(i64::from(SCALE))
            .wrapping_add(toll.sum)
            .wrapping_add(number_or(&self.sums, node, NONE))
            .min(NONE)
    }

    /// The least sums behind the steps of a node, from where the case's keys weren't reached and
    /// from where they were.
    fn least_sums(&self, ways: &Ways, node: usize) -> [i64; 2] {
        let (first, end) = steps_of(ways, node);
        let mut least = [NONE; 2];
        for step in first..end {
            if let Some(step) = ways.steps.get(step) {
                least[0] = least[0].min(self.sum_behind(step, false));
                least[1] = least[1].min(self.sum_behind(step, true));
            }
        }
        least
    }

    /// The step of a node with the least sum behind it, where one leads to the end.
    fn least_step(&self, ways: &Ways, node: usize, reached: bool) -> Option<Step> {
        let (first, end) = steps_of(ways, node);
        let mut least = None;
        let mut sum = NONE;
        for step in first..end {
            if let Some(step) = ways.steps.get(step) {
                let other = self.sum_behind(step, reached);
                if other < sum {
                    sum = other;
                    least = Some(*step);
                }
            }
        }
        least
    }

    /// What each column is charged by some prices, and the least sums by them, from the last nodes
    /// back.
    fn work(&mut self, ways: &Ways, summit: &Summit, prices: &[i64]) {
        for choice in 0..ways.notes.len() {
            if let Some(own) = self.tolls.get_mut(choice) {
                *own = toll_of(&ways.notes[choice], summit, prices);
            }
        }
        let count = ways.first.len();
        for back in 0..count {
            let node = count - 1 - back;
            let mut sums = [NONE, 0];
            if node < ways.end {
                sums = self.least_sums(ways, node);
            }
            for reached in 0..2usize {
                if let Some(place) = self
                    .sums
                    .get_mut(node.wrapping_mul(2).wrapping_add(reached))
                {
                    *place = sums[reached];
                }
            }
        }
    }

    /// Counts the strikes on the least way from a start on, of so many steps, by the prices that were
    /// worked last, and tells where that ends.
    fn count(&mut self, ways: &Ways, start: &Start, steps: usize) -> (usize, bool) {
        for place in 0..WIDTH {
            if let Some(strikes) = self.strikes.get_mut(place) {
                *strikes = 0;
            }
        }
        let mut node = start.node;
        let mut reached = start.reached;
        for _turn in 0..steps {
            let Some(step) = self.least_step(ways, node, reached) else {
                break;
            };
            let choice = step.choice as usize;
            if let Some(toll) = self.tolls.get(choice) {
                reached = reached || toll.reaches;
            }
            if let Some(notes) = ways.notes.get(choice) {
                self.strike(notes);
            }
            node = step.to as usize;
        }
        (node, reached)
    }

    /// Counts the notes of a column.
    fn strike(&mut self, notes: &Notes) {
        for v in 0..4usize {
            let place = notes.places[v];
            if place > 0 {
                if let Some(strikes) = self.strikes.get_mut(index_of(v, place)) {
                    *strikes = strikes.wrapping_add(1);
                }
            }
        }
    }
}

/// A case: the ways, its greatest keys, and the most that a strike is charged.
#[derive(Drop)]
struct Case<'a> {
    ways: &'a Ways,
    summit: Summit,
    most: i64,
}

/// Where rounds begin: at a node, where the case's keys were reached or weren't, with so many
/// strikes of each pitch that cost nothing.
#[derive(Drop)]
struct Start {
    node: usize,
    reached: bool,
    free: Vec<i64>,
}

impl Start {
    /// The empty path.
    fn new(alloc: Global) -> Result<Start, Memory> {
        Ok(Start {
            node: 0,
            reached: false,
            free: vec![in alloc; FREE; WIDTH]?,
        })
    }

    /// Goes on along the least way, so many steps.
    fn go_on(&mut self, case: &Case<'_>, prices: &[i64], round: &mut Round, steps: usize) {
        round.work(case.ways, &case.summit, prices);
        let (node, reached) = round.count(case.ways, self, steps);
        self.node = node;
        self.reached = reached;
        for place in 0..WIDTH {
            let strikes = number_or(&round.strikes, place, 0);
            if let Some(free) = self.free.get_mut(place) {
                *free = (*free).wrapping_sub(strikes).max(0);
            }
        }
    }
}

impl Bid {
    /// A case without prices.
    fn new(alloc: Global) -> Result<Bid, Memory> {
        Ok(Bid {
            prices: vec![in alloc; 0i64; WIDTH]?,
            best: vec![in alloc; 0i64; WIDTH]?,
            way: vec![in alloc; 0i64; WIDTH]?,
            sum: i64::MIN,
            aim: FIRST_AIM,
            stalled: 0,
            is_done: false,
        })
    }

    /// Begins anew, with the best prices.
    fn begin_again(&mut self) {
        self.go_back();
        for place in 0..WIDTH {
            if let Some(way) = self.way.get_mut(place) {
                *way = 0;
            }
        }
        self.sum = i64::MIN;
        self.aim = LATER_AIM;
        self.stalled = 0;
        self.is_done = false;
    }

    /// What the prices charge from a start on that isn't due.
    fn debt(&self, summit: &Summit, start: &Start) -> i64 {
        let mut sum = i64::from(summit.charge);
        for place in 0..WIDTH {
            let price = number_or(&self.prices, place, 0);
            let free = number_or(&start.free, place, FREE);
            sum = sum.wrapping_add(whole(price).wrapping_mul(free));
        }
        sum
    }

    /// The least sum from a start on.
    fn sum_from(&self, case: &Case<'_>, round: &mut Round, start: &Start) -> i64 {
        round.work(case.ways, &case.summit, &self.prices);
        let node = start
            .node
            .wrapping_mul(2)
            .wrapping_add(start.reached as usize);
        let sum = number_or(&round.sums, node, NONE);
        if sum >= NONE {
            return NONE;
        }
        sum.wrapping_sub(self.debt(&case.summit, start))
    }

    /// Goes back to the best prices.
    fn go_back(&mut self) {
        for place in 0..WIDTH {
            let price = number_or(&self.best, place, 0);
            if let Some(own) = self.prices.get_mut(place) {
                *own = price;
            }
        }
    }

    /// Takes the prices for the best ones.
    fn settle(&mut self) {
        for place in 0..WIDTH {
            let price = number_or(&self.prices, place, 0);
            if let Some(best) = self.best.get_mut(place) {
                *best = price;
            }
        }
    }

    /// Takes the prices for the best so far, or goes back to these where nothing was gained for
    /// long.
    fn judge(&mut self, sum: i64) {
        if sum > self.sum {
            self.sum = sum;
            self.stalled = 0;
            self.settle();
            return;
        }
        self.stalled = self.stalled.wrapping_add(1);
        if self.stalled >= PATIENCE {
            self.stalled = 0;
            self.aim = self.aim.wrapping_mul(3) >> 2;
            self.is_done = self.aim < 2;
            self.go_back();
        }
    }

    /// Which way a price is to go, by how often its pitch was struck.
    fn turn(&mut self, strikes: &[i64], free: &[i64], most: i64) -> i64 {
        let mut norm = 0i64;
        for place in 0..WIDTH {
            let price = number_or(&self.prices, place, 0);
            let more = number_or(strikes, place, 0)
                .wrapping_sub(number_or(free, place, FREE))
                .wrapping_mul(16);
            if let Some(way) = self.way.get_mut(place) {
                let mut next = more.wrapping_add(*way >> 1);
                if (price <= 0 && next < 0) || (price >= most && next > 0) {
                    next = 0;
                }
                *way = next;
                norm = norm.wrapping_add(next.wrapping_mul(next));
            }
        }
        norm
    }

    /// Goes that way, as far as the aim is above the sum.
    fn go(&mut self, gap: i64, norm: i64, most: i64) {
        for place in 0..WIDTH {
            let way = number_or(&self.way, place, 0);
            let by = match gap
                .wrapping_mul(16 * FINE)
                .wrapping_mul(way)
                .checked_div(norm)
            {
                Some(by) => by,
                None => 0,
            };
            if let Some(price) = self.prices.get_mut(place) {
                *price = price.wrapping_add(by).max(0).min(most);
            }
        }
    }

    /// One round.
    fn improve(&mut self, case: &Case<'_>, round: &mut Round, start: &Start) {
        let sum = self.sum_from(case, round, start);
        if sum >= NONE {
            self.is_done = true;
            self.sum = NONE;
            return;
        }
        let _ = round.count(case.ways, start, 192);
        self.judge(sum);
        let norm = self.turn(&round.strikes, &start.free, case.most);
        if norm <= 0 {
            self.is_done = true;
            return;
        }
        let gap = self.sum.wrapping_add(self.aim).wrapping_sub(sum);
        self.go(gap, norm, case.most);
    }

    /// The best prices from behind so many steps of the least way on.
    fn later(
        &self,
        alloc: Global,
        case: &Case<'_>,
        round: &mut Round,
        steps: usize,
    ) -> Result<Bid, Memory> {
        let mut start = Start::new(alloc)?;
        start.go_on(case, &self.best, round, steps);
        let mut later = Bid::new(alloc)?;
        for place in 0..WIDTH {
            let price = number_or(&self.best, place, 0);
            if let Some(own) = later.prices.get_mut(place) {
                *own = price;
            }
        }
        for _turn in 0..LATER_ROUNDS {
            if later.is_done {
                break;
            }
            later.improve(case, round, &start);
        }
        Ok(later)
    }

    /// Goes from the best prices towards these, as far as the sum from the beginning on stays above
    /// the floor.
    fn lean(&mut self, case: &Case<'_>, round: &mut Round, start: &Start, later: &Bid, floor: i64) {
        for less in 0..PARTS {
            for place in 0..WIDTH {
                let price = number_or(&self.best, place, 0);
                let by = number_or(&later.best, place, 0).wrapping_sub(price);
                let part = by.wrapping_mul(PARTS.wrapping_sub(less)) >> PARTS_SHIFT;
                if let Some(own) = self.prices.get_mut(place) {
                    *own = price.wrapping_add(part);
                }
            }
            if self.sum_from(case, round, start) > floor {
                self.settle();
                return;
            }
        }
        self.go_back();
    }

    /// Raises a price, as far as the same sum stays above the floor.
    fn lift(
        &mut self,
        case: &Case<'_>,
        round: &mut Round,
        start: &Start,
        place: usize,
        floor: i64,
    ) {
        let price = number_or(&self.best, place, 0);
        for halves in 0..4u32 {
            if let Some(own) = self.prices.get_mut(place) {
                *own = price.wrapping_add(case.most.wrapping_sub(price) >> halves);
            }
            if self.sum_from(case, round, start) > floor {
                self.settle();
                return;
            }
        }
        self.go_back();
    }

    /// Raises the best prices for the later part.
    fn raise(
        &mut self,
        alloc: Global,
        case: &Case<'_>,
        round: &mut Round,
        floor: i64,
    ) -> Result<(), Memory> {
        let start = Start::new(alloc)?;
        let steps = case.ways.depth.wrapping_mul(2) / 5;
        let later = self.later(alloc, case, round, steps)?;
        self.lean(case, round, &start, &later, floor);
        round.work(case.ways, &case.summit, &self.best);
        let _ = round.count(case.ways, &start, 192);
        for place in 0..WIDTH {
            if number_or(&round.strikes, place, 0) > 0 {
                self.lift(case, round, &start, place, floor);
            }
        }
        Ok(())
    }

    /// The best prices of a voice.
    fn prices_of(&self, v: usize) -> Prices {
        let mut strikes = [0u32; PITCHES];
        for place in 0..PITCHES {
            let price = number_or(&self.best, v.wrapping_mul(PITCHES).wrapping_add(place), 0);
            strikes[place] = (whole(price) & 0xff_ffff) as u32;
        }
        Prices {
            scale: SCALE,
            strikes,
        }
    }
}

/// The case whose sum is least, of those that aren't done.
fn least_case(bids: &[Bid]) -> Option<usize> {
    let mut least = None;
    let mut sum = i64::MAX;
    for case in 0..bids.len() {
        if let Some(bid) = bids.get(case) {
            if !bid.is_done && bid.sum < sum {
                sum = bid.sum;
                least = Some(case);
            }
        }
    }
    least
}

/// The least of the sums of all cases.
fn least_sum(bids: &[Bid]) -> i64 {
    let mut least = NONE;
    for k in 0..bids.len() {
        if let Some(bid) = bids.get(k) {
            least = least.min(bid.sum);
        }
    }
    least
}

/// Raises the prices of each case whose sum is within a unit of the least, for the later part.
fn raise_all(
    alloc: Global,
    ways: &Ways,
    charges: &Charges,
    bids: &mut [Bid],
    round: &mut Round,
    most: i64,
) -> Result<(), Memory> {
    let least = least_sum(bids);
    let unit = i64::from(SCALE);
    let floor = (least.wrapping_add(unit - 1) / unit - 1).wrapping_mul(unit);
    for k in 0..bids.len() {
        let case = Case {
            ways,
            summit: charges.summit(k),
            most,
        };
        if let Some(bid) = bids.get_mut(k) {
            if bid.sum < NONE && bid.sum.wrapping_sub(least) <= unit {
                bid.raise(alloc, &case, round, floor)?;
            }
        }
    }
    Ok(())
}

/// Appends the best prices of a case from behind so many steps on, or those that it has, where its
/// sum is above this or no way goes on.
fn put_later(
    alloc: Global,
    prices: &mut Vec<Prices>,
    bid: &Bid,
    case: &Case<'_>,
    round: &mut Round,
    steps: usize,
    far: i64,
) -> Result<(), Memory> {
    if bid.sum <= far && bid.sum < NONE {
        let later = bid.later(alloc, case, round, steps)?;
        if later.sum < NONE {
            return put_voices(prices, &later);
        }
    }
    put_voices(prices, bid)
}

/// Appends the best prices of a case, voice by voice.
fn put_voices(prices: &mut Vec<Prices>, bid: &Bid) -> Result<(), Memory> {
    for v in 0..4usize {
        prices.push(bid.prices_of(v))?;
    }
    Ok(())
}

/// The prices of all cases, and the most that a strike is charged.
#[derive(Drop)]
pub struct Bids {
    bids: Vec<Bid>,
    most: i64,
}

impl Bids {
    /// No prices.
    pub fn new(alloc: Global, sheet: &Sheet, charges: &Charges) -> Result<Bids, Memory> {
        let mut bids: Vec<Bid> = Vec::new(alloc);
        for _case in 0..charges.summits.len().min(CASES) {
            bids.push(Bid::new(alloc)?)?;
        }
        Ok(Bids {
            bids,
            most: i64::from(weight(sheet, 20)) * i64::from(SCALE) * FINE,
        })
    }

    /// Seeks prices by the ways through a web, in so many rounds at most.
    pub fn seek(
        &mut self,
        alloc: Global,
        ways: &Ways,
        charges: &Charges,
        rounds: usize,
    ) -> Result<(), Memory> {
        let mut round = Round::new(alloc, ways)?;
        let start = Start::new(alloc)?;
        for _turn in 0..rounds {
            let Some(k) = least_case(&self.bids) else {
                break;
            };
            let case = Case {
                ways,
                summit: charges.summit(k),
                most: self.most,
            };
            if let Some(bid) = self.bids.get_mut(k) {
                bid.improve(&case, &mut round, &start);
            }
        }
        Ok(())
    }

    /// Begins anew, with the best prices.
    pub fn begin_again(&mut self) {
        for k in 0..self.bids.len() {
            if let Some(bid) = self.bids.get_mut(k) {
                bid.begin_again();
            }
        }
    }

    /// Raises the best prices for the later part.
    pub fn raise(&mut self, alloc: Global, ways: &Ways, charges: &Charges) -> Result<(), Memory> {
        let mut round = Round::new(alloc, ways)?;
        let most = self.most;
        raise_all(alloc, ways, charges, &mut self.bids, &mut round, most)
    }

    /// The best prices of each case from behind so many steps of its least way on, four voices
    /// each. A case whose sum is far above the least keeps those that it has.
    pub fn later_prices(
        &self,
        alloc: Global,
        ways: &Ways,
        charges: &Charges,
        steps: usize,
    ) -> Result<Vec<Prices>, Memory> {
        let mut round = Round::new(alloc, ways)?;
        let far = least_sum(&self.bids).wrapping_add(FAR_ABOVE);
        let mut prices = Vec::new(alloc);
        for k in 0..self.bids.len() {
            let case = Case {
                ways,
                summit: charges.summit(k),
                most: self.most,
            };
            if let Some(bid) = self.bids.get(k) {
                put_later(alloc, &mut prices, bid, &case, &mut round, steps, far)?;
            }
        }
        Ok(prices)
    }

    /// The best prices of each case, four voices each.
    pub fn prices(&self, alloc: Global) -> Result<Vec<Prices>, Memory> {
        let mut prices = Vec::new(alloc);
        for bid in &self.bids {
            put_voices(&mut prices, bid)?;
        }
        Ok(prices)
    }
}
