ghost use Rattle.mdf_match.specs.Arrivals.{LastGivesTheTicket};

/// The order in which tokens come to the ports of an actor is of no account: the last gives the ticket, and an actor
/// without ports has it from the first.
pub fn last_token_gives_the_ticket()
    ensures { LastGivesTheTicket }
{}
