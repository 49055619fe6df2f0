//! What one turn does at a switch.

ghost use Rattle.std.specs.Prelude.{◌≡◌};
ghost use Rattle.net_defs.specs.Route.{leaving_port};

/// The port that a turn leaves by, at a switch of so many ports that was entered by a port. None exactly where there
/// is no such port.
pub fn leaving_port(ports: u8, entry: u8, turn: i8) -> Option<u8>
    ensures { result ≡ leaving_port ports entry turn }
{
    let port = i16::from(entry) + i16::from(turn);
    if 0 <= port && port < i16::from(ports) {
        Some(port as u8)
    } else {
        None
    }
}
