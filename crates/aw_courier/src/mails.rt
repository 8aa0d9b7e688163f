//! What a courier keeps of all roles.
ghost use Rattle.std.specs.Prelude.{◌≡◌, ◌+◌, ◌<◌, [], ◌∷◌, ◌++◌, length, slice_set, IfOk, OnOk};
ghost use Rattle.aw_courier.specs.Mails.{IsNextUp, Shows, HasRoles, place_at, queue_at, with_queue};
ghost use Rattle.aw_law_nodes.specs.Couriers.{new_courier};
ghost use Rattle.aw_term.specs.Rules.{Grammar as PlainGrammar};

use crate::queue::{NextUp, Queue};
use aw_list::Text;
use std::alloc::{AllocError, Global};
use std::marker::Model;

/// Of each role the requests that wait for it, and the first place of its outbox that was not yet pulled.
#[derive(Drop)]
pub struct Mails {
    queues: Vec<Queue>,
    places: Vec<u64>,
}

impl Model for Mails {
    ghost use Rattle.aw_courier.specs.Mails.{Mailed};

    ghost Value = { Mailed };

    ghost view = { λ m. record { queues = m.queues.items; places = m.places.items } };
}

impl Mails {
    /// Nothing was pulled yet from so many roles.
    pub(crate) fn new(alloc: Global, roles: usize) -> Result<Mails, AllocError>
        ensures shows { (g : PlainGrammar) → g.roles ≡ roles → IfOk result (λ m. Shows g m (new_courier g)) }
        ensures size { IfOk result (HasRoles roles) }
    {
        let mut queues = Vec::new(alloc);
        let mut places = Vec::new(alloc);
        'filling: while queues.len() < roles {
            queues.push(Queue::new(alloc))?;
            places.push(0)?;
        }
        Ok(Mails { queues, places })
    }

    /// How many roles there are.
    pub(crate) fn roles(&self) -> usize
        ensures { result ≡ length self.now.queues }
    {
        self.queues.len()
    }

    /// The first place of a role that was not yet pulled.
    pub(crate) fn place(&self, role: usize) -> u64
        requires { role < length self.now.places }
        ensures { result ≡ place_at self.now role }
    {
        self.places[role]
    }

    /// Takes out the first request that waits for a role, if there is one and it has at most so many bytes.
    pub(crate) fn next_for(&mut self, role: usize, room: usize) -> NextUp
        requires { role < length self.old.queues }
        ensures next { IsNextUp room (queue_at self.old role) (queue_at self.new role) result }
        ensures same { self.new ≡ with_queue self.old role (queue_at self.new role) }
    {
        self.queues[role].next_up(room)
    }

    /// Lets a request wait for a role that came from the next place of another one.
    pub(crate) fn put(&mut self, from: usize, to: usize, frame: Text) -> Result<(), AllocError>
        requires from { from < length self.old.places }
        requires to { to < length self.old.queues }
        ensures queues { OnOk result (self.new.queues ≡ slice_set self.old.queues to (queue_at self.old to ++ frame ∷ [])) }
        ensures places { OnOk result (self.new.places ≡ slice_set self.old.places from (place_at self.old from + 1)) }
    {
        let Some(place) = self.places[from].checked_add(1) else {
            return Err(AllocError);
        };
        self.queues[to].push(frame)?;
        self.places[from] = place;
        Ok(())
    }
}
