//! Heads of requests, and a signer that keeps the key of a day.
ghost use Rattle.std.specs.Prelude.{◌≡◌, ◌<◌, IfOk, OnOk};
ghost use Rattle.s3_requests.specs.Requests as spec;
ghost use Rattle.s3_signing.specs.Signing.{signing_key};
ghost use Rattle.s3_signing.specs.Times.{basic_date};

use crate::head::{HeadRoom, Key};
use s3_model::{Ask, Endpoint, Keys, OutOfMemory, Text};
use s3_signing::key_at;
use std::alloc::{AllocError, Global};
use std::marker::Model;
use std::mem;

const SECONDS_PER_DAY: u64 = 86_400;

/// The signing key of a day, which is counted from 1 January 1970.
#[derive(Clone, Copy)]
struct DayKey {
    day: u64,
    key: [u8; 32],
}

/// Keys with the signing key of the day that was last signed on. Contracts see the keys alone.
#[derive(Drop)]
pub struct Signer {
    keys: Keys,
    last: Option<DayKey>,
}

impl Model for Signer {
    ghost use Rattle.s3_model.specs.declared.settings.Keys.{Keys};
    ghost use Rattle.s3_requests.specs.Keeping.{IsDayKey};
    ghost use Rattle.std.specs.Option.{ForSome};

    ghost Value = { Keys };

    ghost view = { λ s. s.keys };

    ghost invariant = { λ s. ForSome s.last (λ k. IsDayKey s.keys k.day k.key) };
}

impl Signer {
    /// A signer that has no signing key yet.
    pub fn new(keys: Keys) -> Signer
        ensures { result ≡ keys }
    {
        Signer { keys, last: None }
    }

    /// The signing key of the moment's day, made anew only where the day is another one.
    fn key_of_day(&mut self, alloc: Global, moment: u64) -> Result<[u8; 32], AllocError>
        requires { moment < 253402300800 }
        ensures key { IfOk result (λ key. key ≡ signing_key self.old.secret (basic_date moment) self.old.region) }
        ensures keys { self.new ≡ self.old }
    {
        let day = moment / SECONDS_PER_DAY;
        if let Some(last) = self.last {
            if last.day == day {
                return Ok(last.key);
            }
        }
        let key = key_at(
            alloc,
            self.keys.secret.as_str(),
            moment,
            self.keys.region.as_str(),
        )?;
        self.last = Some(DayKey { day, key });
        Ok(key)
    }

    /// Writes the head of a request into `room`: the request line, the headers with the signature, and an empty line.
    ///
    /// `payload_hash` and `length` are those of the body; the moment is in seconds since 1970, before the year 10000.
    /// Where memory runs out `room` has any text.
    pub fn write_head(
        &mut self,
        alloc: Global,
        room: &mut HeadRoom,
        ask: &Ask,
        endpoint: &Endpoint,
        moment: u64,
        payload_hash: &str,
        length: u64,
    ) -> Result<(), OutOfMemory>
        requires { moment < 253402300800 }
        ensures head { OnOk result (room.new
            ≡ spec.request_head ask.now endpoint.now self.old moment payload_hash.now length) }
        ensures keys { self.new ≡ self.old }
    {
        let key = self.key_of_day(alloc, moment)?;
        let with = Key {
            keys: &self.keys,
            moment,
            key: &key,
        };
        match room.write(alloc, ask, endpoint, &with, payload_hash, length) {
            Ok(()) => Ok(()),
            Err(AllocError) => Err(OutOfMemory),
        }
    }
}

/// The head of a request, as [`Signer::write_head`] writes it, with a signing key that is made for it alone.
pub fn head_text(
    alloc: Global,
    ask: &Ask,
    endpoint: &Endpoint,
    keys: &Keys,
    moment: u64,
    payload_hash: &str,
    length: u64,
) -> Result<Text, OutOfMemory>
    requires { moment < 253402300800 }
    ensures { IfOk result (λ text. text
        ≡ spec.request_head ask.now endpoint.now keys.now moment payload_hash.now length) }
{
    let key = key_at(alloc, keys.secret.as_str(), moment, keys.region.as_str())?;
    let with = Key {
        keys,
        moment,
        key: &key,
    };
    let mut room = HeadRoom::new(alloc);
    match room.write(alloc, ask, endpoint, &with, payload_hash, length) {
        Ok(()) => Ok(Text::from(room.into_string())),
        Err(AllocError) => {
            mem::drop(room);
            Err(OutOfMemory)
        }
    }
}
