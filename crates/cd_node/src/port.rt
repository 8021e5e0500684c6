// The site of a word, with the ticket of its file.
ghost use Rattle.std.specs.Prelude.{◌≡◌, Some, None};
ghost use Rattle.cd_scope.specs.State.{held_in};
ghost use Rattle.cd_node.specs.Ports.{AreTicketsHeld, HasNone, IsDescriptorOf, IsOpenPort, ticket_of, with_ticket_of, without_ticket};
ghost use Rattle.cd_node.specs.declared.port.Medium.TheVariants as medium;

use cd_elem::Site;
use cd_scope::{Scope, Ticket};
use cd_world::Descriptor;

/// What a site reaches: a file, which is opened for it and closed, or a standard stream, which is open already.
#[derive(Clone, Copy, PartialEq, Eq)]
pub enum Medium {
    File,
    Standard,
}

/// A site, and the ticket of its file while that is open.
pub struct Port {
    pub site: Site,
    pub medium: Medium,
    ticket: Option<Ticket>,
}

impl Port {
    pub fn new(site: Site, medium: Medium) -> Port
        ensures site { result.site ≡ site }
        ensures medium { result.medium ≡ medium }
        ensures ticket { result.ticket ≡ None }
    {
        Port {
            site,
            medium,
            ticket: None,
        }
    }

    /// Where it is read or written; `standard` is that of a standard stream.
    pub fn descriptor(&self, standard: Descriptor) -> Descriptor
        requires { IsOpenPort self.now }
        ensures { IsDescriptorOf self.now standard.0 result.0 }
    {
        match &self.ticket {
            Some(ticket) => ticket.descriptor(),
            None => standard,
        }
    }

    pub fn put(&mut self, ticket: Ticket)
        requires { self.old.ticket ≡ None }
        ensures { self.new ≡ with_ticket_of ticket self.old }
    {
        match self.ticket.replace(ticket) {
            Some(_) => unreachable!(),
            None => {}
        }
    }

    pub fn take(&mut self) -> Ticket
        requires file { self.old.medium ≡ medium.File }
        requires open { IsOpenPort self.old }
        ensures ticket { self.old.ticket ≡ Some result }
        ensures after { self.new ≡ without_ticket self.old }
    {
        match self.ticket.take() {
            Some(ticket) => ticket,
            None => unreachable!(),
        }
    }

    /// Leaves the ticket to the scope.
    pub fn leave(self, scope: &mut Scope)
        requires { AreTicketsHeld (held_in scope.old) (ticket_of self.ticket) }
        ensures { scope.new ≡ scope.old }
    {
        let Port {
            site: _,
            medium: _,
            ticket,
        } = self;
        match ticket {
            Some(ticket) => scope.leave(ticket),
            None => {}
        }
    }

    /// Gives it up, where it has no ticket.
    pub fn give_up(self)
        requires { HasNone (ticket_of self.ticket) }
    {
        let Port {
            site: _,
            medium: _,
            ticket,
        } = self;
        match ticket {
            Some(_ticket) => unreachable!(),
            None => {}
        }
    }
}
