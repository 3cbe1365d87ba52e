//! What a reader does with the reply to the call of its own that waits.

ghost use Rattle.std.specs.Prelude.{◌≡◌, ◌≤◌, true, Some, None, take, IfOk, IfSome, OnOk, OnErr};
ghost use Rattle.atspi_message_in_place.specs.View.{envelope_at};
ghost use Rattle.atspi_protocol.specs.news.Replies as replies;
ghost use Rattle.atspi_protocol.specs.following.Replied.{changed, refused_part, replied, goes_on_if, with_children};
ghost use Rattle.atspi_protocol.specs.following.Replied.{with_items, with_part};
ghost use Rattle.atspi_protocol.specs.following.Takes as takes;
ghost use Rattle.atspi_protocol.specs.following.Wishes.{wishes};
ghost use Rattle.atspi_reader_known.specs.Wanted.{first};
ghost use Rattle.atspi_reader.specs.inner.Asked.{went_on, Queues};
ghost use Rattle.atspi_reader.specs.inner.Turns.{free, rooted, with_apps, replaced, parted, noted_if, is_answer};
ghost use Rattle.atspi_reader.specs.Steps.{Does, Fine};
ghost use Rattle.atspi_reader.specs.ReaderOf.{IsReader, reader_of};

use crate::asks::Next;
use crate::known::make_known;
use crate::question::waiting_question;
use crate::state::Reader;
use crate::wanted::{wish_now, wish_with, wish_without, wish_without_part};
use atspi_base::NoMemory;
use atspi_base::valid_names::{BusName, NameFault, Path};
use atspi_message_in_place::MessageRef;
use atspi_protocol::ends::EndFault;
use atspi_protocol::following::Question;
use atspi_protocol::news::PartName;
use atspi_reader_known::App;
use atspi_reader_news::{items_told, part_told};
use atspi_reader_told::{references, returns_children, returns_name, sender_of};
use std::alloc::Global;

/// The sender of a message, owned.
fn sender_name(alloc: Global, m: &MessageRef) -> Result<Option<BusName>, NoMemory>
    ensures { IfOk result (λ name. name ≡ (envelope_at m.now).sender) }
{
    let Some(sender) = m.sender else {
        return Ok(None);
    };
    match BusName::read(alloc, sender.as_bytes()) {
        Ok(name) => Ok(Some(name)),
        Err(NameFault::NoMemory) => Err(NoMemory),
        Err(NameFault::Form) => Ok(None),
    }
}

impl Reader {
    /// Takes the reply to the call that waits.
    pub(crate) fn take_reply(&mut self, m: &MessageRef) -> Result<(), EndFault>
        requires state { IsReader self.old }
        requires answer { is_answer (reader_of self.old).pending (envelope_at m.now) ≡ true }
        ensures { Does result (reader_of self.old) (reader_of self.new)
            (takes.reader_takes (reader_of self.old) (envelope_at m.now)) }
    {
        match waiting_question(self.alloc, &self.pending)? {
            Some(question) => self.take_answer(m, question),
            None => Ok(()),
        }
    }

    /// Takes the reply to this question.
    fn take_answer(&mut self, m: &MessageRef, question: Question) -> Result<(), EndFault>
        requires { IsReader self.old }
        ensures { Does result (reader_of self.old) (reader_of self.new)
            (takes.goes_on (replied question (free (reader_of self.old) (envelope_at m.now)) (envelope_at m.now))) }
    {
        match question {
            Question::Hello => self.take_start(m, returns_name(m)),
            Question::AddMatch(_) => self.take_start(m, m.kind == 2),
            Question::RegisterEvent(_) => self.take_start(m, m.kind == 2),
            Question::GetChildren => self.take_children(m),
            Question::GetItems(name) => self.take_items(m, &name),
            Question::GetPart(name, path, part) => self.take_part(m, &name, path, part),
        }
    }

    /// The start goes on, or ends here.
    fn take_start(&mut self, m: &MessageRef, starts: bool) -> Result<(), EndFault>
        requires { IsReader self.old }
        ensures { Does result (reader_of self.old) (reader_of self.new)
            (takes.goes_on (goes_on_if starts (free (reader_of self.old) (envelope_at m.now)))) }
    {
        let wish = wish_now(self.alloc, &self.apps)?;
        let next = self.proceeds(starts, wish)?;
        self.note(m);
        self.answered(starts, next);
        Ok(())
    }

    /// The roots of the applications, or the start ends here.
    fn take_children(&mut self, m: &MessageRef) -> Result<(), EndFault>
        requires { IsReader self.old }
        ensures { Does result (reader_of self.old) (reader_of self.new)
            (takes.goes_on (with_children (free (reader_of self.old) (envelope_at m.now)) (envelope_at m.now))) }
    {
        if !returns_children(m) {
            return self.take_start(m, false);
        }
        self.take_roots(m)
    }

    /// The roots of the applications: each that is new becomes known, and the sender is the registry.
    fn take_roots(&mut self, m: &MessageRef) -> Result<(), EndFault>
        requires { IsReader self.old }
        ensures { Does result (reader_of self.old) (reader_of self.new)
            (takes.goes_on (rooted (free (reader_of self.old) (envelope_at m.now)) (envelope_at m.now))) }
    {
        let registry = sender_name(self.alloc, m)?;
        let told = references(self.alloc, m)?;
        let known = self.apps.as_slice().len();
        let heard = self.apps.has(sender_of(m));
        make_known(self.alloc, &mut self.apps, told)?;
        match self.proceeds_now() {
            Ok(next) => {
                self.root(m, heard, registry, next);
                Ok(())
            }
            Err(fault) => {
                self.unlearn(known);
                Err(fault)
            }
        }
    }

    /// The next call is queued, once no call waits any more.
    fn proceeds_now(&mut self) -> Result<Next, EndFault>
        requires { self.old.number ≤ 4294967296 }
        ensures { Queues result (reader_of self.old) (reader_of self.new) self.old.to_come.items
            (first (wishes self.old.apps)) }
    {
        let wish = wish_now(self.alloc, &self.apps)?;
        self.proceeds(true, wish)
    }

    /// The sender is the registry, and the call that was queued waits.
    fn root(&mut self, m: &MessageRef, heard: bool, registry: Option<BusName>, next: Next)
        ensures { reader_of self.new
            ≡ went_on next
            (record (noted_if heard (reader_of self.old) (envelope_at m.now))
            { pending = None; registry = registry }) }
    {
        self.note_if(heard, m);
        self.registry = registry;
        self.answered(true, next);
    }

    /// Only the first so many applications stay known.
    fn unlearn(&mut self, known: usize)
        ensures { reader_of self.new ≡ with_apps (reader_of self.old) (take known self.old.apps) }
    {
        self.apps.truncate(known);
    }

    /// All of an application, or it is forgotten.
    fn take_items(&mut self, m: &MessageRef, name: &BusName) -> Result<(), EndFault>
        requires { IsReader self.old }
        ensures { Does result (reader_of self.old) (reader_of self.new)
            (takes.goes_on
            (with_items (free (reader_of self.old) (envelope_at m.now)) name.now
            (replies.items_told (envelope_at m.now)))) }
    {
        match self.loaded(name, m)? {
            Some(app) => self.put_app(m, name, app),
            None => self.forget_app(m, name),
        }
    }

    /// The application with this name with all of it told by a message.
    fn loaded(&self, name: &BusName, m: &MessageRef) -> Result<Option<App>, NoMemory>
        requires { Fine self.now.apps }
        ensures apps { IfOk result
            (λ app. replaced app name.now self.now.apps
            ≡ (with_items (reader_of self.now) name.now (replies.items_told (envelope_at m.now))).apps) }
        ensures named { IfOk result (λ app. IfSome app (λ a. a.name ≡ name.now)) }
    {
        let Some(items) = items_told(self.alloc, m)? else {
            return Ok(None);
        };
        match self.apps.found(name.as_str()) {
            Some(app) => Ok(Some(app.loaded(self.alloc, items)?)),
            None => Ok(None),
        }
    }

    /// An application that was loaded stands in its own place.
    fn put_app(&mut self, m: &MessageRef, name: &BusName, app: App) -> Result<(), EndFault>
        requires state { IsReader self.old }
        requires named { app.name ≡ name.now }
        ensures { Does result (reader_of self.old) (reader_of self.new)
            (takes.goes_on
            (free (with_apps (reader_of self.old) (replaced (Some app) name.now self.old.apps))
            (envelope_at m.now))) }
    {
        let next = self.proceeds_with(name, &app)?;
        self.apps.put(app);
        self.note(m);
        self.answered(true, next);
        Ok(())
    }

    /// The next call is queued, given that another application stands in the place of the one with this name then.
    fn proceeds_with(&mut self, name: &BusName, app: &App) -> Result<Next, EndFault>
        requires { self.old.number ≤ 4294967296 }
        ensures { Queues result (reader_of self.old) (reader_of self.new) self.old.to_come.items
            (first (wishes (changed (λ _. app.now) name.now self.old.apps))) }
    {
        let wish = wish_with(self.alloc, &self.apps, name.as_str(), app)?;
        self.proceeds(true, wish)
    }

    /// An application is forgotten.
    fn forget_app(&mut self, m: &MessageRef, name: &BusName) -> Result<(), EndFault>
        requires { IsReader self.old }
        ensures { Does result (reader_of self.old) (reader_of self.new)
            (takes.goes_on
            (free (with_apps (reader_of self.old) (replaced None name.now self.old.apps)) (envelope_at m.now))) }
    {
        let wish = wish_without(self.alloc, &self.apps, name.as_str())?;
        let next = self.proceeds(true, wish)?;
        self.apps.forget(name.as_str());
        self.note(m);
        self.answered(true, next);
        Ok(())
    }

    /// A part of a row, or that it is refused. What is wanted then is asked before the part is read, so that one small
    /// function holds the news.
    fn take_part(
        &mut self,
        m: &MessageRef,
        name: &BusName,
        path: Path,
        part: PartName,
    ) -> Result<(), EndFault>
        requires { IsReader self.old }
        ensures { Does result (reader_of self.old) (reader_of self.new)
            (takes.goes_on
            (with_part (free (reader_of self.old) (envelope_at m.now)) name.now path part
            (replies.part_told part path (envelope_at m.now)))) }
    {
        let queued = self.queued();
        let next = self.proceeds_without(name, &path, part)?;
        match self.settle_part(m, name, path, part) {
            Ok(()) => {
                self.note(m);
                self.answered(true, next);
                Ok(())
            }
            Err(fault) => {
                self.unqueue(queued);
                Err(fault.into())
            }
        }
    }

    /// The next call is queued, given that a part of a row is known or refused then.
    fn proceeds_without(
        &mut self,
        name: &BusName,
        path: &Path,
        part: PartName,
    ) -> Result<Next, EndFault>
        requires { self.old.number ≤ 4294967296 }
        ensures { Queues result (reader_of self.old) (reader_of self.new) self.old.to_come.items
            (first (wishes (changed (refused_part path.now part) name.now self.old.apps))) }
    {
        let wish = wish_without_part(self.alloc, &self.apps, name.as_str(), path, part)?;
        self.proceeds(true, wish)
    }

    /// A part of a row is known, or refused, as a message tells. After want of memory all is as before.
    fn settle_part(
        &mut self,
        m: &MessageRef,
        name: &BusName,
        path: Path,
        part: PartName,
    ) -> Result<(), NoMemory>
        ensures ok { OnOk result
            (reader_of self.new
            ≡ with_apps (reader_of self.old)
            (changed (parted (replies.part_told part path (envelope_at m.now)) path part) name.now
            self.old.apps)) }
        ensures err { OnErr result (reader_of self.new ≡ reader_of self.old) }
    {
        match part_told(self.alloc, part, &path, m)? {
            Some(news) => self.apps.tell(name.as_str(), news),
            None => self.apps.refuse(name.as_str(), path, part),
        }
    }
}
