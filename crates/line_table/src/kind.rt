//! The kinds of lines of a report, and of a map.

/// A kind of line: one row of the table.
#[derive(Clone, Copy, Debug, PartialEq, Eq)]
pub enum LineKind {
    /// `refused N badword|notnumber|toolarge|nametaken|novertex|portrange|portused|full|noend|afterend`
    Refused,
    /// `walk host HOST`
    WalkHost,
    /// `walk switch END:port`
    WalkSwitch,
    /// `walk nothing`
    WalkNothing,
    /// `map HOST complete asks N packets N`
    MapComplete,
    /// `map HOST doubtful N asks N packets N`
    MapDoubtful,
    /// `map HOST incomplete depth asks N packets N`
    MapDepth,
    /// `map HOST incomplete nodes asks N packets N`
    MapNodes,
    /// `map HOST refused busy`
    MapBusy,
    /// `circuit HOST depth NUMBER asks N`
    CircuitDepth,
    /// `circuit HOST nodes asks N`
    CircuitNodes,
    /// `routes NUMBER`
    Routes,
    /// `routes refused nomap`
    NoMap,
    /// `route HOST HOST TURNS`
    Route,
    /// `rank VERTEX TURN NUMBER`
    Rank,
    /// `endroutes`
    EndRoutes,
    /// `installed N of NUMBER`
    Installed,
    /// `install refused noroutes|busy|changed|installed|epochs`
    InstallRefused,
    /// `table HOST active|none`
    Table,
    /// `CALL HOST PORT done`
    CallDone,
    /// `CALL HOST PORT done NUMBER`
    CallCounted,
    /// `CALL HOST PORT token NUMBER`
    CallToken,
    /// `CALL HOST PORT sent token NUMBER`
    CallSent,
    /// `CALL HOST PORT received token NUMBER from HOST PORT prio PRIO len NUMBER bytes HEX`
    CallReceived,
    /// `CALL HOST PORT nothing`
    CallNothing,
    /// `CALL HOST PORT refused already|notopen|notoken|toolong|noroute|spent|badsize`
    CallRefused,
    /// `CALL HOST PORT refused busy|unread|filling N`
    CallUnfinished,
    /// `tokens HOST PORT send PLACES`
    Tokens,
    /// `plan at N`
    PlanAt,
    /// `step idle|lost|reset|flipped|expired|gaveup`
    StepDid,
    /// `step injected|repeated|held N`
    StepCounted,
    /// `step moved|blocked|replayed END`
    StepPlaced,
    /// `step arrived HOST probe|reply|loop|routes|routesack|message|fragment|notnext|notoken|ack`
    StepArrived,
    /// `step dropped outofrange|notroute|nocable|newcable|badcrc|routeleft|unknowntype|malformed|notmine`
    StepDropped,
    /// `settle rounds N resets N unacked N`
    Settle,
    /// `end injected N dropped N`
    Finish,
    /// `pull END done`
    Pulled,
    /// `pull END refused nocable`
    PullRefused,
    /// `plug END END done`
    Plugged,
    /// `plug END END refused portused|full`
    PlugRefused,
    /// `revoked N`
    Revoked,
    /// `broken HOST HOST`
    Broken,
    /// `endbroken`
    EndBroken,
    /// `broken refused noroutes`
    NoBroken,
    /// `gen N N hosts N switches N cables N`
    GenHead,
    /// `map complete asks N packets N`
    GenComplete,
    /// `map doubtful N asks N packets N`
    GenDoubtful,
    /// `map incomplete depth asks N packets N`
    GenDepth,
    /// `map incomplete nodes asks N packets N`
    GenNodes,
    /// `messages N received N`
    GenCount,
    /// `duo idle|hello|stale|message|notnext|notoken|ack|expired|nothing`
    DuoDid,
    /// `duo token|emitted|sent|unsure|restarted N`
    DuoCounted,
    /// `duo refused notoken|toolong|spent|badsize`
    DuoRefused,
    /// `duo received N HEX`
    DuoReceived,
}

/// A kind of line of a map: one row of the table of a map's lines.
#[derive(Clone, Copy, Debug, PartialEq, Eq)]
pub enum MapLineKind {
    /// `host HOST`
    Host,
    /// `switch VERTEX core|outside`
    Switch,
    /// `cable VERTEX TURN VERTEX TURN`
    Cable,
    /// `endmap`
    End,
}
