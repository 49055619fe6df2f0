//! The text of a fabric.

ghost use Rattle.std.specs.Prelude.{◌≡◌, ◌++◌, IfOk, OnOk, IsTrue};
ghost use Rattle.net_defs.specs.Network.{has_vertex, IsFabric};
ghost use Rattle.fabric_file.specs.Reading.{AreNamed};
ghost use Rattle.fab_text.specs.Written.{line_text};
ghost use Rattle.fabric_file.specs.Printing.{cable_words, cables_text, fabric_text, host_words, hosts_text};
ghost use Rattle.fabric_file.specs.Printing.{switch_words, switches_text, IsReadBack};

use line_writing::Word::{Number, Text};
use line_writing::append_line;
use port_graph::{Cable, Fabric, Vertex};
use std::alloc::{AllocError, Global};

/// The text of a fabric up to its line `script`: its hosts, its switches and its cables, a line each, in their order.
///
/// Followed by a line `script` it is read back as the same fabric, where the names have the form of the text, as those
/// of a fabric that was read have.
pub fn print_fabric(alloc: Global, f: &Fabric) -> Result<Vec<u8>, AllocError>
    ensures text { IfOk result (λ text. text.items ≡ fabric_text f.now) }
    ensures read_back { IfOk result (λ text. AreNamed f.now → IsReadBack f.now text.items) }
{
    let mut text = Vec::new(alloc);
    print_hosts(f, &mut text)?;
    print_switches(f, &mut text)?;
    print_cables(f, &mut text)?;
    Ok(text)
}

// A line for each host.
fn print_hosts(f: &Fabric, text: &mut Vec<u8>) -> Result<(), AllocError>
    ensures text { OnOk result (text.new.items ≡ text.old.items ++ hosts_text f.now) }
    ensures fabric { IsFabric f.now }
{
    for host in 0..f.hosts() {
        host_line(text, f.name_of(Vertex::Host(host)))?;
    }
    Ok(())
}

// A line for each switch.
fn print_switches(f: &Fabric, text: &mut Vec<u8>) -> Result<(), AllocError>
    ensures { OnOk result (text.new.items ≡ text.old.items ++ switches_text f.now) }
{
    for switch in 0..f.switches() {
        let v = Vertex::Switch(switch);
        switch_line(text, f.name_of(v), f.ports(v))?;
    }
    Ok(())
}

// A line for each cable.
fn print_cables(f: &Fabric, text: &mut Vec<u8>) -> Result<(), AllocError>
    requires { IsFabric f.now }
    ensures { OnOk result (text.new.items ≡ text.old.items ++ cables_text f.now) }
{
    for k in 0..f.cables() {
        cable_line(text, f, f.cable(k))?;
    }
    Ok(())
}

// `host NAME`
fn host_line(text: &mut Vec<u8>, name: &[u8]) -> Result<(), AllocError>
    ensures { OnOk result (text.new.items ≡ text.old.items ++ line_text (host_words name.now)) }
{
    append_line(text, &[Text(b"host"), Text(name)])
}

// `switch NAME PORTS`
fn switch_line(text: &mut Vec<u8>, name: &[u8], ports: u8) -> Result<(), AllocError>
    ensures { OnOk result (text.new.items ≡ text.old.items
        ++ line_text (switch_words record { name = name.now; ports = ports })) }
{
    let ports = Number(u64::from(ports));
    append_line(text, &[Text(b"switch"), Text(name), ports])
}

// `cable V P W Q`
fn cable_line(text: &mut Vec<u8>, f: &Fabric, c: Cable) -> Result<(), AllocError>
    requires a { IsTrue (has_vertex f.now c.a.v) }
    requires b { IsTrue (has_vertex f.now c.b.v) }
    ensures { OnOk result (text.new.items ≡ text.old.items ++ line_text (cable_words f.now c)) }
{
    let a = Text(f.name_of(c.a.v));
    let p = Number(u64::from(c.a.p));
    let b = Text(f.name_of(c.b.v));
    let q = Number(u64::from(c.b.p));
    append_line(text, &[Text(b"cable"), a, p, b, q])
}
