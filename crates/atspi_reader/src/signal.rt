//! What a reader does with a signal.

ghost use Rattle.std.specs.Prelude.{◌≡◌, ◌==◌, ◌++◌, true, [], Some, None, chars, filter, flat_map, take, IfOk, IfSome};
ghost use Rattle.std.specs.Prelude.{IsErrOf, OnOk, OnErr, Option};
ghost use Rattle.std.specs.List.{list_any};
ghost use Rattle.std.specs.Option.{option_copied};
ghost use Rattle.atspi_message_in_place.specs.View.{bytes_of, envelope_at};
ghost use Rattle.atspi_protocol.specs.news.NewsOf as readings;
ghost use Rattle.atspi_protocol.specs.news.NewsOf.{or_empty};
ghost use Rattle.atspi_protocol.specs.following.ReaderState.{Followed, is_named};
ghost use Rattle.atspi_protocol.specs.following.Wishes.{wishes};
ghost use Rattle.atspi_protocol.specs.following.Known.{told_end, with_end, end_of_connection, closings};
ghost use Rattle.atspi_protocol.specs.following.Known as known;
ghost use Rattle.atspi_protocol.specs.following.Replied.{changed};
ghost use Rattle.atspi_protocol.specs.following.Takes as takes;
ghost use Rattle.atspi_protocol.specs.following.Takes.{folded, lines_at, notes};
ghost use Rattle.atspi_reader_known.specs.Wanted.{first};
ghost use Rattle.atspi_reader.specs.Doing.{all_done};
ghost use Rattle.atspi_reader.specs.inner.Turns.{listed, IsNewTo};
ghost use Rattle.atspi_reader.specs.inner.Heard.{heard, Speaks};
ghost use Rattle.atspi_reader.specs.Steps.{Does, Fine};
ghost use Rattle.atspi_reader.specs.ReaderOf.{IsReader, reader_of};

use crate::asks::Next;
use crate::known::{adopt, new_app};
use crate::said::{say_closing, say_news, tell_end};
use crate::state::Reader;
use atspi_base::NoMemory;
use atspi_message_in_place::MessageRef;
use atspi_protocol::ends::EndFault;
use atspi_protocol::following::{Question, ReaderEvent};
use atspi_reader_known::{App, Apps};
use atspi_reader_news::news_of;
use atspi_reader_told::{ended_name, new_child, sender_of};
use atspi_tree_model::News;
use std::alloc::Global;
use std::collections::VecDeque;
use std::mem;

/// The question for all of an application, if there is one.
fn items_wish(alloc: Global, app: Option<&App>) -> Result<Option<Question>, NoMemory>
    ensures { (a : Option Followed) → option_copied app.entry ≡ a → IfSome a (λ x. x.view ≡ None)
        → IfOk result (λ wish. wish ≡ first (wishes (listed a))) }
{
    match app {
        Some(app) => Ok(Some(Question::GetItems(app.name().copy(alloc)?))),
        None => Ok(None),
    }
}

impl Reader {
    /// Takes a signal.
    pub(crate) fn take_signal(&mut self, m: &MessageRef) -> Result<(), EndFault>
        requires state { IsReader self.old }
        requires signal { ((envelope_at m.now).kind == 4) ≡ true }
        ensures { Does result (reader_of self.old) (reader_of self.new)
            (takes.reader_takes (reader_of self.old) (envelope_at m.now)) }
    {
        match ended_name(m) {
            Some(name) => self.take_end(m, name),
            None => self.take_news(m),
        }
    }

    /// The end of a name: its application is forgotten.
    fn take_end(&mut self, m: &MessageRef, name: &str) -> Result<(), EndFault>
        requires { IsReader self.old }
        ensures { Does result (reader_of self.old) (reader_of self.new)
            (takes.goes_on (with_end (notes (reader_of self.old) (envelope_at m.now)) (Some (chars name.now)))) }
    {
        let mut events = VecDeque::new(self.alloc);
        self.say_end(name, &mut events)?;
        let next = self.rest(None, &mut events)?;
        self.queue(&mut events)?;
        self.apps.forget(name);
        self.note(m);
        self.goes_on(next);
        Ok(())
    }

    /// Appends what is told and spoken at the end of a name.
    fn say_end(&self, name: &str, events: &mut VecDeque<ReaderEvent>) -> Result<(), NoMemory>
        requires { Fine self.now.apps }
        ensures { OnOk result
            (all_done events.new.items
            ≡ all_done events.old.items
            ++ (end_of_connection (chars name.now)
            ++ closings (filter (is_named (chars name.now)) self.now.apps))) }
    {
        tell_end(self.alloc, name, events)?;
        match self.apps.found(name) {
            Some(app) => say_closing(self.alloc, app, events),
            None => Ok(()),
        }
    }

    /// News of the sender, and a new child of the registry's.
    fn take_news(&mut self, m: &MessageRef) -> Result<(), EndFault>
        requires { IsReader self.old }
        ensures { Does result (reader_of self.old) (reader_of self.new)
            (takes.goes_on
            (takes.takes_news
            (known.takes_child (notes (reader_of self.old) (envelope_at m.now)) (envelope_at m.now))
            (envelope_at m.now))) }
    {
        let child = self.child(m)?;
        match self.read_news(m) {
            Ok(news) => self.take_told(m, child, news),
            Err(fault) => Err(fault.into()),
        }
    }

    /// News and a new application. Both are lent from here on, so that one small function lets them go.
    fn take_told(&mut self, m: &MessageRef, child: Option<App>, news: News) -> Result<(), EndFault>
        requires state { IsReader self.old }
        requires new { IfSome child (IsNewTo self.old.apps) }
        requires made { self.old.apps ++ listed child
            ≡ (known.takes_child (reader_of self.old) (envelope_at m.now)).apps }
        requires told { list_any (is_named (or_empty (envelope_at m.now).sender)) self.old.apps ≡ true
            → news ≡ readings.news_of (or_empty (envelope_at m.now).sender) (envelope_at m.now) }
        ensures { Does result (reader_of self.old) (reader_of self.new)
            (takes.goes_on
            (takes.takes_news
            (known.takes_child (notes (reader_of self.old) (envelope_at m.now)) (envelope_at m.now))
            (envelope_at m.now))) }
    {
        let mut child = child;
        let mut news = news;
        let heard = self.hear(m, &mut child, &mut news);
        // (each let go by its name, which is dear where it falls out of scope)
        drop(news);
        drop(child);
        heard
    }

    /// The registry's name, once it is known.
    fn registry_name(&self) -> Option<&str>
        ensures { bytes_of result ≡ self.now.registry }
    {
        match &self.registry {
            Some(name) => Some(name.as_str()),
            None => None,
        }
    }

    /// The application that a message makes known, if it is new.
    fn child(&self, m: &MessageRef) -> Result<Option<App>, NoMemory>
        ensures made { IfOk result
            (λ app. self.now.apps ++ listed app ≡ (known.takes_child (reader_of self.now) (envelope_at m.now)).apps) }
        ensures new { IfOk result (λ app. IfSome app (IsNewTo self.now.apps)) }
    {
        match new_child(self.registry_name(), m) {
            Some(child) => new_app(self.alloc, &self.apps, child.owned(self.alloc)?),
            None => Ok(None),
        }
    }

    /// The news in a message of an application that is known.
    fn read_news(&self, m: &MessageRef) -> Result<News, NoMemory>
        ensures { list_any (is_named (or_empty (envelope_at m.now).sender)) self.now.apps ≡ true
            → IfOk result (λ news. news ≡ readings.news_of (or_empty (envelope_at m.now).sender) (envelope_at m.now)) }
    {
        match self.apps.found(sender_of(m)) {
            Some(app) => news_of(self.alloc, app.name().as_str(), m),
            None => Ok(News::Nothing),
        }
    }

    /// Appends what is spoken at a news of the sender, given before it is taken.
    fn say_told(
        &self,
        m: &MessageRef,
        news: &News,
        events: &mut VecDeque<ReaderEvent>,
    ) -> Result<(), NoMemory>
        requires { Fine self.now.apps }
        ensures { OnOk result
            (all_done events.new.items
            ≡ all_done events.old.items
            ++ flat_map (lines_at news.now)
            (filter (is_named (or_empty (envelope_at m.now).sender)) self.now.apps)) }
    {
        match self.apps.found(sender_of(m)) {
            Some(app) => say_news(self.alloc, app, news, events),
            None => Ok(()),
        }
    }

    /// What a news of the sender makes wanted, where nothing is wanted.
    fn sender_wish(&self, m: &MessageRef, news: &News) -> Result<Option<Question>, NoMemory>
        requires fine { Fine self.now.apps }
        requires resting { wishes self.now.apps ≡ [] }
        ensures { IfOk result
            (λ wish. wish
            ≡ first (wishes (changed (folded news.now) (or_empty (envelope_at m.now).sender) self.now.apps))) }
    {
        match self.apps.found(sender_of(m)) {
            Some(app) => app.news_wish(self.alloc, news),
            None => Ok(None),
        }
    }

    /// What is wanted first after a news of the sender and with a new application, where nothing is wanted.
    fn wish_then(
        &self,
        m: &MessageRef,
        news: &News,
        child: Option<&App>,
    ) -> Result<Option<Question>, NoMemory>
        requires fine { Fine self.now.apps }
        requires resting { wishes self.now.apps ≡ [] }
        ensures { (a : Option Followed) → option_copied child.entry ≡ a → IfSome a (λ x. x.view ≡ None)
            → IfOk result
            (λ wish. wish
            ≡ first
            (wishes
            (changed (folded news.now) (or_empty (envelope_at m.now).sender)
            (self.now.apps ++ listed a)))) }
    {
        match self.sender_wish(m, news)? {
            Some(wish) => Ok(Some(wish)),
            None => items_wish(self.alloc, child),
        }
    }

    /// The same where no call waits; where one does, nothing is asked.
    fn news_wish(
        &self,
        m: &MessageRef,
        news: &News,
        child: Option<&App>,
    ) -> Result<Option<Question>, NoMemory>
        requires { IsReader self.now }
        ensures { (reader_of self.now).pending ≡ None → (a : Option Followed) → option_copied child.entry ≡ a
            → IfSome a (λ x. x.view ≡ None)
            → IfOk result
            (λ wish. wish
            ≡ first
            (wishes
            (changed (folded news.now) (or_empty (envelope_at m.now).sender)
            (self.now.apps ++ listed a)))) }
    {
        match &self.pending {
            Some(_) => Ok(None),
            None => self.wish_then(m, news, child),
        }
    }

    /// What is spoken at a news and asked next is queued, given before the news and a new application are taken. After
    /// a fault all is as before.
    fn say_and_ask(
        &mut self,
        m: &MessageRef,
        child: Option<&App>,
        news: &News,
    ) -> Result<Next, EndFault>
        requires { IsReader self.old }
        ensures { (a : Option Followed) → option_copied child.entry ≡ a → IfSome a (λ x. x.view ≡ None)
            → Speaks result (reader_of self.old) (reader_of self.new)
            (flat_map (lines_at news.now) (filter (is_named (or_empty (envelope_at m.now).sender)) self.old.apps))
            (first
            (wishes
            (changed (folded news.now) (or_empty (envelope_at m.now).sender)
            (self.old.apps ++ listed a)))) }
    {
        let wish = self.news_wish(m, news, child)?;
        let mut events = VecDeque::new(self.alloc);
        self.say_told(m, news, &mut events)?;
        let next = self.rest(wish, &mut events)?;
        self.queue(&mut events)?;
        Ok(next)
    }

    /// News and a new application are taken, once what they say and make wanted is queued. After a fault all is as
    /// before.
    fn hear(
        &mut self,
        m: &MessageRef,
        child: &mut Option<App>,
        news: &mut News,
    ) -> Result<(), EndFault>
        requires state { IsReader self.old }
        requires new { IfSome child.old (IsNewTo self.old.apps) }
        requires made { self.old.apps ++ listed child.old
            ≡ (known.takes_child (reader_of self.old) (envelope_at m.now)).apps }
        requires told { list_any (is_named (or_empty (envelope_at m.now).sender)) self.old.apps ≡ true
            → news.old ≡ readings.news_of (or_empty (envelope_at m.now).sender) (envelope_at m.now) }
        ensures { Does result (reader_of self.old) (reader_of self.new)
            (takes.goes_on
            (takes.takes_news
            (known.takes_child (notes (reader_of self.old) (envelope_at m.now)) (envelope_at m.now))
            (envelope_at m.now))) }
    {
        let queued = self.queued();
        match self.say_and_ask(m, child.as_ref(), news) {
            Ok(next) => self.settle_news(m, child, news, next, queued),
            Err(fault) => Err(fault),
        }
    }

    /// The news and the new application are taken, and the call that was queued waits. After want of memory only so
    /// much of what was done stays queued.
    fn settle_news(
        &mut self,
        m: &MessageRef,
        child: &mut Option<App>,
        news: &mut News,
        next: Next,
        queued: usize,
    ) -> Result<(), EndFault>
        requires { IfSome child.old (IsNewTo self.old.apps) }
        ensures ok { OnOk result
            (reader_of self.new ≡ heard (reader_of self.old) (envelope_at m.now) (listed child.old) news.old next) }
        ensures err { OnErr result
            (reader_of self.new ≡ record (reader_of self.old) { out = take queued (reader_of self.old).out }) }
        ensures memory { IsErrOf result EndFault.Spent → ⊥ }
    {
        let known = self.apps.has(sender_of(m));
        match settle(&mut self.apps, sender_of(m), child, news) {
            Ok(()) => {
                self.note_if(known, m);
                self.goes_on(next);
                Ok(())
            }
            Err(fault) => {
                self.unqueue(queued);
                Err(fault.into())
            }
        }
    }
}

/// A new application becomes known, and news of the one with this name are taken. After want of memory all is as
/// before.
fn settle(
    apps: &mut Apps,
    name: &str,
    child: &mut Option<App>,
    news: &mut News,
) -> Result<(), NoMemory>
    requires { IfSome child.old (IsNewTo apps.old) }
    ensures ok { OnOk result (apps.new ≡ changed (folded news.old) name.now (apps.old ++ listed child.old)) }
    ensures err { OnErr result (apps.new ≡ apps.old) }
{
    let known = apps.as_slice().len();
    adopt(apps, child.take())?;
    let folded = apps.fold(name, mem::replace(news, News::Nothing));
    if folded.is_err() {
        apps.truncate(known);
    }
    folded
}
