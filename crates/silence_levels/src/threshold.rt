// Where a frame turns from silence to sound.
ghost use Rattle.std.specs.Prelude.{◌≡◌};
ghost use Rattle.silence_levels.specs.Threshold.{decibel_on, auto_of, resolve_of, no_signal, is_fixed};
ghost use Rattle.silence_levels.specs.Levels.{thresholds_in};

use base_code::floats;
use grid::validate::Domain;

// How the thresholds are chosen: decibels for a recording of decibels, probabilities for scores.
#[derive(Clone, Copy)]
pub enum Threshold {
    // Derived from the recording itself, with hysteresis.
    Auto,
    // A fixed level.
    Abs(f32),
    // This far below the reference.
    BelowRef(f32),
}

// The levels of one recording under one threshold setting.
#[derive(Clone, Copy)]
pub struct Levels {
    // Percentile 10 of the values of frames with signal.
    pub floor: f32,
    // Percentile 99 of them.
    pub reference: f32,
    // Level at which silence becomes sound.
    pub on: f32,
    // Sound ends below this level.
    pub off: f32,
}

// The two thresholds of a recording alone.
#[derive(Clone, Copy)]
pub struct Thresholds {
    pub on: f32,
    pub off: f32,
}

// Those of some levels.
impl From<Levels> for Thresholds {
    ghost from_gives = { λ l t. t ≡ thresholds_in l };

    fn from(l: Levels) -> Thresholds {
        Thresholds {
            on: l.on,
            off: l.off,
        }
    }
}

// Without a frame with signal nothing reaches the threshold.
pub fn no_signal() -> Levels
    ensures { result ≡ no_signal }
{
    Levels {
        floor: 0.0,
        reference: 0.0,
        on: 1.0 / 0.0,
        off: 1.0 / 0.0,
    }
}

// The automatic onset for decibels.
fn decibel_on(floor: f32, reference: f32) -> f32
    ensures { result ≡ decibel_on floor reference }
{
    let on = floats::max(floor + 4.0, floats::min(floor + 6.0, reference - 20.0));
    // A threshold above the reference cannot distinguish a steady sound from noise.
    // Keep steady input; an absolute threshold can reject noise at a known level.
    if on > reference { floor } else { on }
}

// The automatic thresholds.
fn auto(domain: Domain, floor: f32, reference: f32) -> Levels
    ensures { result ≡ auto_of domain floor reference }
{
    match domain {
        Domain::Decibels => {
            let on = decibel_on(floor, reference);
            Levels {
                floor,
                reference,
                on,
                off: on - 3.0,
            }
        }
        Domain::Scores => Levels {
            floor,
            reference,
            on: 0.5,
            off: 0.35,
        },
    }
}

// The thresholds between which the recording's floor and reference put them.
#[tactic(auto, unfolding(crate::specs::Threshold::resolve_of))]
pub fn resolve(domain: Domain, threshold: Threshold, floor: f32, reference: f32) -> Levels
    ensures { result ≡ resolve_of domain threshold floor reference }
{
    match threshold {
        Threshold::Auto => auto(domain, floor, reference),
        Threshold::Abs(v) => Levels {
            floor,
            reference,
            on: v,
            off: v,
        },
        Threshold::BelowRef(v) => Levels {
            floor,
            reference,
            on: reference - v,
            off: reference - v,
        },
    }
}

// Whether the thresholds are the same for all values.
#[tactic(auto, unfolding(crate::specs::Threshold::is_fixed))]
pub fn is_fixed(domain: Domain, threshold: Threshold) -> bool
    ensures { result ≡ is_fixed domain threshold }
{
    match threshold {
        Threshold::Auto => matches!(domain, Domain::Scores),
        Threshold::Abs(_) => true,
        Threshold::BelowRef(_) => false,
    }
}
