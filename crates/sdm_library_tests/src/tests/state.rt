//! The tables of commands and status at telling cases, worked by hand. In a run some of these can't come about; `next`
//! is asked for every held state all the same.

use sdm_state::{Held, State, Status, Triggers, next};

/// What is held (traction cut-off, service brake, emergency brake, status); what is triggered (over, warn, serv,
/// emer); the state; whether the train is stopped, early release permitted, the service brake in use; what is then
/// held; what the case shows.
const CASES: &str = "\
000N 0000 C 001 000N nothing is triggered: normal
000N 0000 T 001 000I a target is supervised: indication
000N 0000 R 001 000I the release speed is supervised: indication
000N 1000 C 001 000O over alone cuts off no traction
000I 1000 T 001 000O overspeed comes before indication
000I 1000 R 001 000O overspeed comes before indication at the release speed too
000O 1000 C 001 000O overspeed is no warning while only over holds
000O 1100 C 001 100W warn cuts off traction
000N 0100 C 001 100W warn needs no over
100W 1000 C 001 100W a warning and the cut-off are held while over holds
100W 0000 T 001 000I a warning and the cut-off end where over doesn't hold
000W 0000 C 001 000N a warning is held by over alone
000X 1000 C 001 000W over after an intervention is a warning
000O 1110 T 001 110X serv raises the service brake
000N 0010 C 001 110X serv needs no warn
110X 1000 T 001 110X the service brake is held while over holds
110X 1100 T 001 110X the service brake is held below its limit
010X 0100 T 001 100W the service brake is not held by warn
110X 0000 T 001 000I the service brake ends where over doesn't hold
000O 1110 T 000 100W serv raises no service brake that is not in use
110X 1000 T 000 100W a service brake that is no more in use is not held
000O 1111 T 001 111X emer and serv raise both brakes
000O 1111 T 000 101X emer raises the emergency brake alone without a service brake
000N 0001 C 001 101X emer needs no other trigger
101X 0000 T 001 001X the emergency brake is held within the permitted speed
101X 0000 R 001 001X an intervention comes before indication
101X 0000 C 010 000N early release where over doesn't hold
101X 1000 T 011 101X no early release while over holds
101X 0000 T 101 000I release at standstill
101X 1000 T 100 100W release at standstill whatever holds
101X 0001 C 111 101X emer is not released
001X 1000 T 001 001X over holds the cut-off and never raises it
111X 1000 T 011 111X over holds all three";

fn flag(letter: u8) -> Result<bool, &'static str> {
    match letter {
        b'0' => Ok(false),
        b'1' => Ok(true),
        _ => Err("not a flag"),
    }
}

fn held(word: Option<&str>) -> Result<Held, &'static str> {
    let [tco, sb, eb, status] = word.ok_or("nothing held")?.as_bytes() else {
        return Err("not what is held");
    };
    Ok(Held {
        tco: flag(*tco)?,
        sb: flag(*sb)?,
        eb: flag(*eb)?,
        status: match *status {
            b'N' => Status::N,
            b'I' => Status::I,
            b'O' => Status::O,
            b'W' => Status::W,
            b'X' => Status::X,
            _ => return Err("not a status"),
        },
    })
}

fn triggers(word: Option<&str>) -> Result<Triggers, &'static str> {
    let [over, warn, serv, emer] = word.ok_or("no triggers")?.as_bytes() else {
        return Err("not triggers");
    };
    Ok(Triggers {
        over: flag(*over)?,
        warn: flag(*warn)?,
        serv: flag(*serv)?,
        emer: flag(*emer)?,
    })
}

fn state(word: Option<&str>) -> Result<State, &'static str> {
    match word.ok_or("no state")?.as_bytes() {
        b"C" => Ok(State::C),
        b"T" => Ok(State::T),
        b"R" => Ok(State::R),
        _ => Err("not a state"),
    }
}

#[test]
fn commands_and_status_follow_the_tables(rt: HostRuntime) -> Result<(), &'static str> {
    for line in CASES.lines() {
        let mut words = line.split(' ');
        let last = held(words.next())?;
        let t = triggers(words.next())?;
        let now = state(words.next())?;
        let [stopped, early_release, service] = words.next().ok_or("no flags")?.as_bytes() else {
            return Err("not three flags");
        };
        let (stopped, early_release, service) = (
            flag(*stopped)?,
            flag(*early_release)?,
            flag(*service)?,
        );
        let wanted = held(words.next())?;
        let found = next(last, t, now, stopped, early_release, service);
        assert!(rt; found == wanted, "{line}");
    }
    Ok(())
}
