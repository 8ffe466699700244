//! The events of a file, one after the other.

ghost use Rattle.std.specs.Prelude.{◌≡◌, ◌+◌, ◌*◌, ◌^◌, ◌≤◌, ◌<◌, [], ◌∷◌, length, IfErr, IfOk, IfNone, IfSome};

use crate::chunks::{Header, track_of};
use crate::fault::ByteFault;
use crate::messages::{Kind, event_of};
use crate::numbers::quantity_of;

/// An event: its track, counted from 0 over the tracks of the file, when it comes, in ticks from
/// the beginning of its track, the offset at which its delta time begins, and what it is.
#[derive(Clone, Copy, Debug, PartialEq, Eq)]
pub struct Event<'a> {
    pub track: u16,
    pub tick: u64,
    pub offset: usize,
    pub kind: Kind<'a>,
}

/// What is left of a track.
#[derive(Clone, Copy)]
struct Track<'a> {
    number: u16,
    end: usize,
    tick: u64,
    running: Option<u8>,
    rest: &'a [u8],
    ghost within: { length rest.now ≤ end },
    ghost counted: { number + 1 < 2 ^ 16 },
    ghost early: { tick + length rest.now * 2 ^ 28 < 2 ^ 48 },
}

/// The events of a file from the first track to the last.
#[derive(Drop)]
pub struct Events<'a> {
    header: Header,
    size: usize,
    /// How many tracks were begun.
    begun: u16,
    /// The track that is being read.
    track: Option<Track<'a>>,
    /// What follows the tracks that were begun.
    rest: &'a [u8],
    ghost within: { length rest.now ≤ size },
    ghost short: { size ≤ 2 ^ 20 },
    ghost counted: { begun ≤ header.tracks },
}

impl<'a> Track<'a> {
    ghost use Rattle.std.specs.Option.{option_map};
    ghost use Rattle.smf_bytes.specs.Numbers.{Gives};
    ghost use Rattle.smf_bytes.specs.Events.{IsWithinBounds, left_seen, next_in, timed_seen};

    /// The next event, and what is left behind it.
    #[tactic(auto, unfolding(crate::specs::Events::next_in))]
    fn next(self) -> Result<(Event<'a>, Option<Track<'a>>), ByteFault>
        ensures value { Gives (λ x. (timed_seen x.0, option_map left_seen x.1)) result
            (next_in (left_seen self.entry)) }
        ensures bounds { IfOk result (λ x. IsWithinBounds x.0) }
    {
        if self.rest.is_empty() {
            return Err(ByteFault::NoEnd { at: self.end });
        }
        let (delta, bytes) = quantity_of(self.end, self.rest)?;
        let taken = event_of(self.running, self.end, bytes)?;
        let tick = self.tick + u64::from(delta);
        let event = Event {
            track: self.number,
            tick,
            offset: self.end - self.rest.len(),
            kind: taken.kind,
        };
        if taken.kind.ends_track() {
            return Ok((event, None));
        }
        let left = Track {
            number: self.number,
            end: self.end,
            tick,
            running: taken.running,
            rest: taken.rest,
        };
        Ok((event, Some(left)))
    }
}

impl<'a> Events<'a> {
    ghost use Rattle.smf_bytes.specs.Files.{AreToCome};
    ghost use Rattle.smf_bytes.specs.Events.{Answers, ComesWith, IsWithinBounds, TakesFirst, answer_seen, file_seen, later_tracks, to_come, tracks_in, with_track};

    /// What comes behind the header of a file of so many bytes.
    pub(crate) fn behind(header: Header, size: usize, rest: &'a [u8]) -> Events<'a>
        requires within { length rest.now ≤ size }
        requires short { size ≤ 2 ^ 20 }
        ensures { file_seen result ≡ record {
          header = header;
          answers = tracks_in header.tracks 0
              size rest.entry.now;
        } }
    {
        Events {
            header,
            size,
            begun: 0,
            track: None,
            rest,
        }
    }

    /// The format: 0 where the file is one track for all channels, 1 where its tracks sound
    /// together.
    pub fn format(&self) -> u16
        ensures { result ≡ self.now.header.format }
    {
        self.header.format
    }

    /// How many tracks the header counts.
    pub fn tracks(&self) -> u16
        ensures { result ≡ self.now.header.tracks }
    {
        self.header.tracks
    }

    /// How many ticks a quarter note has.
    pub fn division(&self) -> u16
        ensures { result ≡ self.now.header.division }
    {
        self.header.division
    }

    /// Begins the next track.
    fn begin(&mut self) -> Result<Track<'a>, ByteFault>
        requires counted { self.old.begun < self.old.header.tracks }
        requires fits { self.old.begun + 1 < 2 ^ 16 }
        ensures kept { self.new.header ≡ self.old.header }
        ensures begun { IfOk result (λ track. later_tracks self.old ≡ with_track track self.new) }
        ensures fault { IfErr result (λ fault. later_tracks self.old ≡ Err fault ∷ []) }
    {
        let chunk = track_of(self.size, self.rest)?;
        let track = Track {
            number: self.begun,
            end: self.size - chunk.rest.len(),
            tick: 0,
            running: None,
            rest: chunk.bytes,
        };
        self.begun += 1;
        self.rest = chunk.rest;
        Ok(track)
    }

    /// The track that is being read, or the next one where none is.
    fn current(&mut self) -> Option<Result<Track<'a>, ByteFault>>
        ensures kept { self.new.header ≡ self.old.header }
        ensures none { IfNone result ((to_come self.old ≡ []) × (to_come self.new ≡ [])) }
        ensures track { IfSome result (λ answer. ComesWith (to_come self.old) answer self.new) }
    {
        if let Some(track) = self.track {
            return Some(Ok(track));
        }
        if self.begun == self.header.tracks {
            return None;
        }
        Some(self.begin())
    }

    /// Reads nothing more.
    #[tactic(auto, using(crate::proofs::EventLemmas::tracks_over))]
    fn stop(&mut self)
        ensures kept { self.new.header ≡ self.old.header }
        ensures over { to_come self.new ≡ [] }
    {
        self.track = None;
        self.begun = self.header.tracks;
    }

    /// The next event of a track that is being read, or the fault that stands in its place.
    fn step(&mut self, track: Track<'a>) -> Result<Event<'a>, ByteFault>
        ensures first { with_track track.entry self.old ≡ answer_seen result ∷ to_come self.new }
        ensures bounds { IfOk result IsWithinBounds }
        ensures kept { self.new.header ≡ self.old.header }
    {
        match track.next() {
            Ok((event, left)) => {
                self.track = left;
                Ok(event)
            }
            Err(fault) => {
                self.stop();
                Err(fault)
            }
        }
    }

    /// Takes the next event or fault.
    fn take(&mut self) -> Option<Result<Event<'a>, ByteFault>>
        ensures first { TakesFirst (to_come self.old) result (to_come self.new) }
        ensures bounds { IfSome result (λ answer. IfOk answer IsWithinBounds) }
        ensures kept { self.new.header ≡ self.old.header }
    {
        match self.current()? {
            Ok(track) => Some(self.step(track)),
            Err(fault) => {
                self.stop();
                Some(Err(fault))
            }
        }
    }

    /// The next event, or the fault that stands in its place. After the last event and after a
    /// fault there is none.
    pub fn next(&mut self) -> Option<Result<Event<'a>, ByteFault>>
        ensures first { (before after : Answers) → AreToCome self.old before → AreToCome self.new
            after → TakesFirst before result after }
        ensures bounds { IfSome result (λ answer. IfOk answer IsWithinBounds) }
        ensures kept { self.new.header ≡ self.old.header }
    {
        self.take()
    }
}
