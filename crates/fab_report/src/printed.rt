//! What a command printed.

ghost use Rattle.std.specs.Prelude.{◌≡◌, ◌++◌, ◌∷◌, [], IfOk, OnOk, codes, decimal};
ghost use Rattle.fab_text.specs.Written.{spaced};
ghost use Rattle.line_table.specs.Texts.{host_name};
ghost use Rattle.run_defs.specs.LineRows.{place_text};
ghost use Rattle.run_defs.specs.declared.line.Line.TheVariants.{Client, Duo};
ghost use Rattle.run_defs.specs.Output.{OneLine};
ghost use Rattle.run_defs.specs.Summary.{call_figures, figures_of};
ghost use Rattle.fab_report.specs.Printed.{listed, printed_of};
ghost use Rattle.fab_report.specs.There.{AreThere, IsHost, IsSaidOf};

use crate::client::client_line;
use crate::duo::duo_line;
use crate::line::print_line_onto;
use crate::places::{append_place, begin_tokens};
use port_graph::Fabric;
use run_defs::{ClientCall, DuoEffect, Figure, Line, PlaceEntry};
use std::alloc::{AllocError, Global};
use std::marker::Model;
use world_defs::Said;

/// What a command printed: its text, and the figure that a summary shows of it, if there is one. Contracts see the
/// text and the figures.
///
/// A run has one, onto which each of its commands prints in place of the one before it: so its room serves for all of
/// them, and no command makes a text of its own. Where memory runs out, a part of a line may stand there.
#[derive(Drop)]
pub struct Printed {
    text: Vec<u8>,
    figure: Option<Figure>,
}

impl Model for Printed {
    ghost use Rattle.fab_report.specs.Printed.{PrintedState, listed};

    ghost Value = { PrintedState };

    ghost view = { λ p. record { text = p.text.items; figures = listed p.figure } };
}

impl Printed {
    /// Nothing was printed.
    pub fn nothing(alloc: Global) -> Printed
        ensures { result ≡ record { text = []; figures = [] } }
    {
        Printed {
            text: Vec::new(alloc),
            figure: None,
        }
    }

    /// A text was printed, of which a summary shows this.
    pub fn with(text: Vec<u8>, figure: Figure) -> Printed
        ensures { result ≡ record { text = text.items; figures = figure ∷ [] } }
    {
        Printed {
            text,
            figure: Some(figure),
        }
    }

    /// A line was printed, and nothing else. The hosts, switches and ends that it names are of the fabric, whose names
    /// it is printed with.
    pub fn line(alloc: Global, l: &Line, f: &Fabric) -> Result<Printed, AllocError>
        requires there { AreThere f.now l.now }
        ensures printed { IfOk result (λ p. p ≡ printed_of f.now (OneLine l.now ∷ [])) }
    {
        let mut printed = Printed::nothing(alloc);
        printed.put_line(l, f)?;
        Ok(printed)
    }

    /// A line is printed in place of what was, as [`Printed::line`] prints it.
    #[tactic(auto, using(crate::proofs::Printing::line_printed))]
    pub fn put_line(&mut self, l: &Line, f: &Fabric) -> Result<(), AllocError>
        requires there { AreThere f.now l.now }
        ensures printed { OnOk result (self.new ≡ printed_of f.now (OneLine l.now ∷ [])) }
    {
        self.text.clear();
        print_line_onto(&mut self.text, l, f)?;
        self.figure = figure_of(l);
        Ok(())
    }

    /// What a client's call was answered is printed in place of what was, as the line that it is.
    #[tactic(auto, using(crate::proofs::Printing::line_printed))]
    pub fn put_said(
        &mut self,
        f: &Fabric,
        call: ClientCall,
        host: u16,
        port: u8,
        said: &Said,
    ) -> Result<(), AllocError>
        requires host { IsHost f.now host }
        requires sender { IsSaidOf f.now said.now }
        ensures printed { OnOk result (self.new ≡ printed_of f.now (OneLine (Client call host port said.now) ∷ [])) }
    {
        self.text.clear();
        client_line(&mut self.text, f, call, host, port, said)?;
        self.text.push(b'\n')?;
        self.figure = call_figure(call, said);
        Ok(())
    }

    /// What one event of the two hosts that restart did is printed in place of what was, as the line that it is. It
    /// has no names of a fabric.
    #[tactic(auto, using(crate::proofs::Printing::line_printed))]
    pub fn put_duo(&mut self, effect: &DuoEffect, f: &Fabric) -> Result<(), AllocError>
        ensures printed { OnOk result (self.new ≡ printed_of f.now (OneLine (Duo effect.now) ∷ [])) }
    {
        self.text.clear();
        self.figure = None;
        duo_line(&mut self.text, effect)?;
        self.text.push(b'\n')?;
        Ok(())
    }

    /// The line of a port's tokens is begun in place of what was: `tokens H P send`.
    pub fn begin_tokens(&mut self, f: &Fabric, host: u16, port: u8) -> Result<(), AllocError>
        requires { IsHost f.now host }
        ensures { OnOk result (self.new ≡ record {
          text = spaced (codes "tokens" ∷ host_name f.now host ∷ decimal port ∷ codes "send" ∷ []);
          figures = [];
        }) }
    {
        self.text.clear();
        self.figure = None;
        begin_tokens(&mut self.text, f, host, port)
    }

    /// A token of that line: ` T=PLACE`.
    pub fn put_place(&mut self, entry: PlaceEntry) -> Result<(), AllocError>
        ensures { OnOk result (self.new ≡ record {
          text = self.old.text ++ 32 ∷ place_text entry;
          figures = self.old.figures;
        }) }
    {
        append_place(&mut self.text, entry)
    }

    /// Nothing is printed: what was is given up, and its room stays.
    pub fn clear(&mut self)
        ensures { self.new ≡ record { text = []; figures = [] } }
    {
        self.text.clear();
        self.figure = None;
    }

    /// Its text.
    pub fn text(&self) -> &[u8]
        ensures { result.now ≡ self.now.text }
    {
        &self.text
    }

    /// Its text, handed out.
    pub fn into_text(self) -> Vec<u8>
        ensures { result.items ≡ self.text }
    {
        self.text
    }

    /// What a summary shows of it.
    pub fn figure(&self) -> Option<Figure>
        ensures { listed result ≡ self.now.figures }
    {
        self.figure
    }

    /// More text was printed, of which a summary shows nothing.
    pub fn follow(&mut self, more: &[u8]) -> Result<(), AllocError>
        ensures { OnOk result (self.new ≡ record { text = self.old.text ++ more.now; figures = self.old.figures }) }
    {
        self.text.extend_from_slice(more)
    }
}

// What a summary shows of a line.
fn figure_of(l: &Line) -> Option<Figure>
    ensures { listed result ≡ figures_of l.now }
{
    match l {
        Line::Map {
            words,
            asks,
            packets,
            ..
        } => Some(Figure::Mapped {
            words: *words,
            asks: *asks,
            packets: *packets,
        }),
        Line::Routes(count) => Some(Figure::Routed(*count)),
        Line::Installed { acked, of } => Some(Figure::Installed {
            acked: *acked,
            of: *of,
        }),
        Line::Client { call, said, .. } => call_figure(*call, said),
        Line::Settle {
            rounds,
            resets,
            unacked,
        } => Some(Figure::Settled {
            rounds: *rounds,
            resets: *resets,
            unacked: *unacked,
        }),
        _ => None,
    }
}

// What a summary shows of an answer to a client's call.
fn call_figure(call: ClientCall, said: &Said) -> Option<Figure>
    ensures { listed result ≡ call_figures call said.now }
{
    match (call, said) {
        (ClientCall::Send, Said::Token(_)) => Some(Figure::Accepted),
        (ClientCall::Poll, Said::Received { .. }) => Some(Figure::Received),
        _ => None,
    }
}
