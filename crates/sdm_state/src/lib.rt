//! The brake commands and the supervision status after a reading, from those that are held, what is triggered and the
//! state. Each command has a rule of its own for what raises it and what lets it go; the status shows the gravest of
//! what holds.
#![tactic(auto)]

ghost use Rattle.std.specs.Prelude.{◌≡◌};
ghost use Rattle.sdm_rules.specs.Commands.{commands_after};

pub use sdm_rules::{Held, State, Status, Triggers};

/// The commands and the status after a reading at which `t` is triggered in `state`. `stopped` says that the speed is
/// 0, `early_release` that the emergency brake may be released before standstill (Q_NVEMRRLS), and `service` that the
/// service brake is in use. (SUBSET-026-3 3.13.10; own tables)
#[tactic(auto, unfolding(sdm_rules::specs::Commands::commands_after, sdm_rules::specs::Commands::emergency_after))]
pub fn next(
    held: Held,
    t: Triggers,
    state: State,
    stopped: bool,
    early_release: bool,
    service: bool,
) -> Held
    ensures { result ≡ commands_after held t state stopped early_release service }
{
    let is_released = stopped | (early_release & !t.over);
    let eb = t.emer | (held.eb & !is_released);
    let sb = service & (t.serv | (held.sb & t.over));
    let tco = t.warn | t.serv | t.emer | (held.tco & t.over);
    // The first that holds. A warning stays over the permitted speed, also after an intervention.
    let was_alarm = matches!(held.status, Status::W | Status::X);
    let status = if eb | sb {
        Status::X
    } else if t.warn | (t.over & was_alarm) {
        Status::W
    } else if t.over {
        Status::O
    } else if state == State::C {
        Status::N
    } else {
        Status::I
    };
    Held {
        tco,
        sb,
        eb,
        status,
    }
}
