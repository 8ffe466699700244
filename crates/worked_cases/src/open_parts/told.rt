//! How a case tells what a part keeps.

use fux_grid::Cell;
use fux_pitch::Pitch;
use open_ends::{
    Both, OpenCadences, OpenLigature, OpenParallels, OpenPart, OpenPassing, OpenRuns, OpenShapes,
    OpenSuspensions, OpenTurns, Way, runs_ended,
};
use rule_law::voice_pairs;
use std::fmt::Write;

/// A part whose cases tell what it keeps.
pub trait Told: OpenPart {
    /// Adds what is kept.
    fn tell(&self, text: &mut String) -> Option<()>;

    /// What a column pays by its number and its cells: nothing, but where runs are followed.
    fn paid(&self, _i: usize, _now: &[Cell]) -> u32 {
        0
    }
}

/// Adds the name of a pitch, or a dash.
fn add_pitch(text: &mut String, pitch: Option<Pitch>) -> Option<()> {
    match pitch {
        Some(pitch) => write!(text, " {pitch}").ok()?,
        None => write!(text, " -").ok()?,
    }
    Some(())
}

impl<P: Told, Q: Told> Told for Both<P, Q> {
    fn tell(&self, text: &mut String) -> Option<()> {
        self.first.tell(text)?;
        self.second.tell(text)
    }
}

impl Told for OpenPassing {
    fn tell(&self, text: &mut String) -> Option<()> {
        add_pitch(text, self.origin)
    }
}

impl Told for OpenLigature {
    fn tell(&self, text: &mut String) -> Option<()> {
        add_pitch(text, self.pitch)
    }
}

impl Told for OpenShapes {
    fn tell(&self, text: &mut String) -> Option<()> {
        write!(text, " {:b}", self.possible).ok()?;
        Some(())
    }
}

impl Told for OpenParallels {
    fn tell(&self, text: &mut String) -> Option<()> {
        for pitch in self.pitches.iter() {
            add_pitch(text, *pitch)?;
        }
        Some(())
    }
}

impl Told for OpenSuspensions {
    fn tell(&self, text: &mut String) -> Option<()> {
        let sign = if self.late_start { "late" } else { "-" };
        write!(text, " {sign}").ok()?;
        Some(())
    }
}

impl Told for OpenCadences {
    fn tell(&self, text: &mut String) -> Option<()> {
        for (v, leads) in self.leads.iter().enumerate() {
            if *leads {
                write!(text, " {v}").ok()?;
            }
        }
        Some(())
    }
}

impl Told for OpenTurns {
    fn tell(&self, text: &mut String) -> Option<()> {
        add_pitch(text, self.newest)?;
        match self.way {
            Way::Falls => write!(text, " falls").ok()?,
            Way::Level => write!(text, " level").ok()?,
            Way::Rises => write!(text, " rises").ok()?,
        }
        add_pitch(text, self.turning)
    }
}

impl Told for OpenRuns {
    fn tell(&self, text: &mut String) -> Option<()> {
        for (pair, run) in voice_pairs().iter().zip(self.pairs.iter()) {
            if run.thirds > 0 {
                write!(text, " {}{} thirds {}", pair.0, pair.1, run.thirds).ok()?;
            }
            if run.sixths > 0 {
                write!(text, " {}{} sixths {}", pair.0, pair.1, run.sixths).ok()?;
            }
        }
        Some(())
    }

    fn paid(&self, i: usize, now: &[Cell]) -> u32 {
        runs_ended(i, self, now)
    }
}
