//! The sockets of the system as a host (std's and mio's, which never block). What passes through them is told to no
//! contract.

ghost use Rattle.std.specs.Prelude.{◌≡◌, [], None};
ghost use Rattle.atspi_live_sockets.specs.Numbers.{numbers};

use crate::refusal::Refusal;
use crate::sockets::Sockets;
use atspi_base::Text;
use atspi_live_host::{Did, Host};
use mio::net::{UnixListener, UnixStream};
use std::alloc::Global;
use std::fs::{self, Files};
use std::io::{self, Eprint, ErrorKind};
use std::net::Net;
use std::os::unix::fs::FileTypeExt;

/// Non-blocking Unix sockets, with the counts of their faults. Its first listen or connect opens what the system needs,
/// so one that is never called costs nothing.
#[derive(Drop)]
pub struct NetHost<'a, R: Files + Net + Eprint> {
    alloc: Global,
    rt: &'a R,
    sockets: Sockets,
    /// Where it listens.
    place: Option<Text>,
}

impl<'a, R: Files + Net + Eprint> NetHost<'a, R> {
    /// No link is open yet, and no call has failed. A host with a longest rest, in milliseconds, waits so long where a
    /// whole round found nothing ready; without one it waits for nothing.
    pub fn new(alloc: Global, rt: &'a R, rest: Option<u64>) -> Self
        ensures links { ⟦<NetHost<'a, R> as Host>⟧.links result ≡ [] }
        ensures calls { ⟦<NetHost<'a, R> as Host>⟧.calls result ≡ None }
        ensures faults { ⟦<NetHost<'a, R> as Host>⟧.faults result ≡ 0 }
        ensures link_faults { ⟦<NetHost<'a, R> as Host>⟧.link_faults result ≡ 0 }
    {
        NetHost {
            alloc,
            rt,
            sockets: Sockets::new(alloc, rest),
            place: None,
        }
    }

    /// Why no listener can be made where a file lies. `Unheard`: it is a socket's at which nobody listens, so that who
    /// left it has ended.
    fn taken_by(&self, path: &Text) -> Refusal {
        match fs::symlink_metadata(self.rt, path.as_str()) {
            Ok(found) if found.file_type().is_socket() => {
                match UnixStream::connect(self.rt, path.as_str()) {
                    Err(error) if error.kind() == ErrorKind::ConnectionRefused => Refusal::Unheard,
                    _ => Refusal::Served,
                }
            }
            _ => Refusal::Taken,
        }
    }

    /// A listener at the path. A socket's file that was left there is removed first; all else that is there stays, and
    /// is refused.
    fn bind(&self, path: &Text) -> Result<UnixListener, Refusal> {
        match UnixListener::bind(self.rt, path.as_str()) {
            Ok(listener) => Ok(listener),
            Err(error) if error.kind() == ErrorKind::AddrInUse => match self.taken_by(path) {
                Refusal::Unheard => self.bind_again(path).map_err(|e| Refusal::of(&e)),
                refusal => Err(refusal),
            },
            Err(error) => Err(Refusal::of(&error)),
        }
    }

    /// A listener at the path, in the place of the file that was left there.
    fn bind_again(&self, path: &Text) -> io::Result<UnixListener> {
        fs::remove_file(self.rt, path.as_str())?;
        UnixListener::bind(self.rt, path.as_str())
    }

    /// The host listens no more, and the socket's file is removed where it listened.
    pub fn leave(&mut self) {
        if !self.sockets.leave() {
            return;
        }
        if let Some(place) = &self.place {
            let _ = fs::remove_file(self.rt, place.as_str());
        }
    }

    /// Opens what the system needs, and gives the path as it is to be kept.
    fn begin(&mut self, path: &Text) -> Option<Text>
        ensures links { self.new.sockets.links ≡ self.old.sockets.links }
        ensures faults { self.new.sockets.faults ≡ self.old.sockets.faults }
        ensures link_faults { self.new.sockets.link_faults ≡ self.old.sockets.link_faults }
    {
        if self.sockets.open(self.alloc, self.rt).is_err() {
            return None;
        }
        path.copy(self.alloc).ok()
    }

    /// A line of news on standard error. Where it can't be written, nothing else changes.
    fn tell(&self, news: &str, path: &Text) {
        let rt = self.rt;
        let _ = eprintln!(rt; "atspi: {news} {}", path.as_str());
    }

    /// Tells on standard error that a path is refused, and why.
    fn tell_refusal(&self, what: &str, path: &Text, refusal: Refusal) {
        let rt = self.rt;
        let _ = eprintln!(rt; "atspi: {what} {}: {}", path.as_str(), refusal.words());
    }
}

impl<'a, R: Files + Net + Eprint> Host for NetHost<'a, R> {
    ghost calls = { λ _. None };

    ghost links = { λ h. numbers h.sockets.links.items };

    ghost faults = { λ h. h.sockets.faults };

    ghost link_faults = { λ h. h.sockets.link_faults };

    fn listen(&mut self, path: &Text) -> Did {
        let Some(place) = self.begin(path) else {
            return self.sockets.fails();
        };
        match self.bind(path) {
            Ok(listener) => {
                let did = self.sockets.listen(listener);
                if let Did::Done(_) = did {
                    self.place = Some(place);
                    self.tell("listens at", path);
                }
                did
            }
            Err(refusal) => {
                self.tell_refusal("cannot listen at", path, refusal);
                self.sockets.fails()
            }
        }
    }

    fn accept(&mut self) -> Did {
        self.sockets.accept()
    }

    fn connect(&mut self, path: &Text) -> Did {
        if self.sockets.open(self.alloc, self.rt).is_err() {
            return self.sockets.fails();
        }
        match UnixStream::connect(self.rt, path.as_str()) {
            Ok(stream) => {
                self.tell("is connected to", path);
                self.sockets.join(stream)
            }
            Err(error) => {
                self.tell_refusal("cannot connect to", path, Refusal::of(&error));
                self.sockets.fails()
            }
        }
    }

    fn read(&mut self, link: u32, into: &mut [u8]) -> Did {
        self.sockets.read(link, into)
    }

    fn write(&mut self, link: u32, bytes: &[u8]) -> Did {
        self.sockets.write(link, bytes)
    }

    fn close(&mut self, link: u32) {
        self.sockets.close(link);
    }
}
