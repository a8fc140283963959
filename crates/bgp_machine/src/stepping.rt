//! Acting on the octets that a session is fed.

ghost use Rattle.std.specs.Prelude.{◌≡◌, ◌⊎◌, [], false, true, IfOk, OnOk, OnErr};
ghost use Rattle.bgp_machine.specs.Prelude.{RestsUnless, RestsBehind, IsOwnLook, IsJudged, HeldTakesMemory, IsPulled, IsFedAndStepped, FrontTakesMemory, where_found};

use crate::action::Actions;
use crate::look::Next;
use crate::session::Session;
use arrayvec::ArrayVec;
use bgp_update::UpdateView;
use std::alloc::{AllocError, Global};

impl Session {
    /// What is to be done on the message, or the header with a fault, that is held, which is dropped with that. None
    /// where neither is held.
    ///
    /// # Errors
    /// `AllocError` where an allocation failed: only for an OPEN without fault in OpenSent, and for an UPDATE that doesn't end the session in
    /// Established. Nothing is changed then, and the call can be made again.
    pub fn step(&mut self, alloc: Global) -> Result<Option<Actions>, AllocError>
        ensures ok { IfOk result (λ found. IsJudged self.old found self.new) }
        // Where it gives None, the session is at rest: the laws on cutting begin there.
        ensures rests { IfOk result (λ found. RestsUnless found self.new) }
        ensures err { OnErr result (self.new ≡ self.old) }
        ensures memory { OnErr result (HeldTakesMemory self.old) }
    {
        let mut actions = ArrayVec::new();
        let Some((_taken, going)) = self.own_look(alloc, &[], &mut actions)? else {
            let _waiting = self.held();
            return Ok(None);
        };
        self.go(going);
        Ok(Some(actions))
    }

    /// What is to be done on what is held, or on the message or the faulty header that the piece begins with: it is
    /// judged in the piece, and not copied. Answers first the number of octets of the piece consumed, and None where
    /// more octets are needed, and before the connection is up.
    ///
    /// What is held comes first, and then nothing of the piece is consumed. Where an incomplete message is held, or the
    /// piece has less than a message, the piece is fed. Else one message of the piece is consumed: the octets that its
    /// Length says, or the 19 of a faulty header.
    ///
    /// # Errors
    /// As `step`. Nothing of the piece is consumed then, and the call can be made again.
    pub fn pull(
        &mut self,
        alloc: Global,
        piece: &[u8],
    ) -> Result<(usize, Option<Actions>), AllocError>
        ensures ok { IfOk result (λ r. IsPulled self.old piece.now r.0 r.1 self.new) }
        ensures as_fed { IfOk result (λ r. IsFedAndStepped self.old piece.now r.0 r.1 self.new) }
        // So it is where a pull consumes nothing and gives None, and where one gives None and what is held is
        // incomplete.
        ensures rests { IfOk result (λ r. RestsBehind r.0 r.1 self.new) }
        ensures err { OnErr result (self.new ≡ self.old) }
        ensures memory { OnErr result (HeldTakesMemory self.old ⊎ FrontTakesMemory self.old piece.now) }
    {
        let mut actions = ArrayVec::new();
        match self.pull_into(alloc, piece, &mut actions)? {
            (count, true) => Ok((count, Some(actions))),
            (count, false) => Ok((count, None)),
        }
    }

    /// As [`pull`](Session::pull), into the caller's set, over its former contents. Answers first the number of octets
    /// of the piece consumed, and then whether a message or a faulty header was judged: the set is empty where none
    /// was.
    ///
    /// A set of actions has room for 20 KB. Pulling message after message into one set doesn't move that room for each.
    ///
    /// # Errors
    /// As `step`. Nothing of the piece is consumed then, the set is empty, and the call can be made again.
    #[tactic(auto, using(crate::proofs::Cuttings::pulls_as_fed))]
    pub fn pull_into(
        &mut self,
        alloc: Global,
        piece: &[u8],
        actions: &mut Actions,
    ) -> Result<(usize, bool), AllocError>
        ensures ok { IfOk result (λ r. IsPulled self.old piece.now r.0 (where_found r.1 actions.new) self.new) }
        ensures as_fed { IfOk result (λ r. IsFedAndStepped self.old piece.now r.0 (where_found r.1 actions.new) self.new) }
        ensures rests { IfOk result (λ r. RestsBehind r.0 (where_found r.1 actions.new) self.new) }
        ensures quiet { IfOk result (λ r. r.1 ≡ false → actions.new.items ≡ []) }
        ensures empty { OnErr result (actions.new.items ≡ []) }
        ensures err { OnErr result (self.new ≡ self.old) }
        ensures memory { OnErr result (HeldTakesMemory self.old ⊎ FrontTakesMemory self.old piece.now) }
    {
        let Some((taken, next)) = self.own_look(alloc, piece, actions)? else {
            return Ok((self.feed(piece), false));
        };
        self.go(next);
        Ok((taken, true))
    }

    /// What [`look`](Session::look) finds: what is to be done is written into a set, owned. Answers the number of
    /// octets of the piece consumed, and where the session continues; none where the piece is to be fed, and nothing is
    /// to be done then.
    fn own_look(
        &self,
        alloc: Global,
        piece: &[u8],
        actions: &mut Actions,
    ) -> Result<Option<(usize, Next)>, AllocError>
        ensures ok { IfOk result (λ found. IsOwnLook self.now piece.now found actions.new) }
        ensures empty { OnErr result (actions.new.items ≡ []) }
        ensures memory { OnErr result (HeldTakesMemory self.now ⊎ FrontTakesMemory self.now piece.now) }
    {
        let mut place = UpdateView::empty();
        match self.look(piece, &mut place) {
            None => {
                actions.clear();
                Ok(None)
            }
            Some(look) => {
                let next = look.own(alloc, actions)?;
                Ok(Some((look.taken(), next)))
            }
        }
    }
}
