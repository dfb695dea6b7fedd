ghost use Rattle.std.specs.Prelude.{◌≡◌, ◌<◌, ◌↔◌, not, [], filter, length, slice_get, vec_capacity, IfOk, IsSome};
ghost use Rattle.std.specs.Prelude.{IsTrue};
ghost use Rattle.std.specs.Option.{option_copied, option_map};
ghost use Rattle.checkpoint_image.specs.Receive.{came, choice_among, is_next, is_outdone, is_same_opener};
ghost use Rattle.checkpoint_image.specs.Receive.{reply_sent_again, reply_to};
ghost use Rattle.checkpoint_image.specs.Receive.{request_standing, waits};
ghost use Rattle.file_calls.specs.Queue.{IsOnePerOpener, arrival_of, left_by, queue_of, sent_again, watched_arrival};
ghost use Rattle.file_calls.specs.Takeover.{settlement_of};

use checkpoint_image::RequestStanding;
use gd_words::{NoMemory, Reply, Request, Words};
use std::alloc::Global;
use std::marker::Model;
use sync_ids::Receive;

/// What becomes of a request that comes.
#[derive(Drop)]
pub enum Arrival {
    /// It waits.
    Waits,
    /// Nothing changes.
    Dropped,
    /// It was answered, and its reply is sent again.
    Again(Reply),
}

/// The requests that wait at a copy of a process, the oldest first: of one opener one request waits at most.
#[derive(Drop)]
pub struct Waiting {
    openers: u16,
    requests: Vec<Request>,
}

impl Model for Waiting {
    ghost use Rattle.std.specs.Prelude.{◌≤◌};
    ghost use Rattle.std.specs.Vec.{vec_capacity};
    ghost use Rattle.file_calls.specs.Queue.{IsOnePerOpener, Queue, queue_of};

    ghost Value = { Queue };

    ghost view = { λ waiting. queue_of waiting.openers waiting.requests.items };

    ghost invariant = { λ waiting. IsOnePerOpener (queue_of waiting.openers waiting.requests.items)
        × (waiting.openers ≤ vec_capacity waiting.requests) };
}

impl Waiting {
    /// No request waits; there is room for one of each opener.
    pub fn new(alloc: Global, openers: u16) -> Result<Waiting, NoMemory>
        ensures { IfOk result (λ waiting. waiting ≡ queue_of openers []) }
    {
        let requests = Vec::with_capacity(alloc, usize::from(openers))?;
        Ok(Waiting { openers, requests })
    }

    /// How many requests wait.
    pub fn len(&self) -> usize
        ensures value { result ≡ length self.now.requests }
        ensures sound { IsOnePerOpener self.now }
    {
        self.requests.len()
    }

    /// The request at place `k` of those that wait, counted from 0.
    pub fn at(&self, k: usize) -> Option<&Request>
        ensures { option_copied result ≡ slice_get self.now.requests k }
    {
        self.requests.get(k)
    }

    /// A request came to a copy that acts.
    pub fn arrive(&mut self, request: Request, receive: &Receive) -> Arrival
        requires known { request.opener < self.old.openers }
        requires table { length receive.now.depths ≡ self.old.openers }
        ensures arrival { result ≡ arrival_of receive.now.table self.old.requests request }
        ensures again { sent_again result ≡ reply_sent_again receive.now.table request }
        ensures requests { self.new.requests ≡ came receive.now.table self.old.requests request }
        ensures openers { self.new.openers ≡ self.old.openers }
    {
        match receive.standing(request.opener, request.number) {
            RequestStanding::Next | RequestStanding::Ahead => self.arrive_watching(request),
            RequestStanding::InHand | RequestStanding::Old => Arrival::Dropped,
            RequestStanding::Kept(words) => Arrival::Again(reply_to(&request, words)),
        }
    }

    /// A request came to a copy that watches.
    pub fn arrive_watching(&mut self, request: Request) -> Arrival
        requires { request.opener < self.old.openers }
        ensures arrival { result ≡ watched_arrival self.old.requests request }
        ensures requests { self.new.requests ≡ waits self.old.requests request }
        ensures openers { self.new.openers ≡ self.old.openers }
    {
        if is_outdone(&request, &self.requests) {
            return Arrival::Dropped;
        }
        take_out(&mut self.requests, &request);
        self.requests.push_reserved(request);
        Arrival::Waits
    }

    /// Takes out the first request that stands Next.
    pub fn choose(&mut self, receive: &Receive) -> Option<Request>
        requires { length receive.now.depths ≡ self.old.openers }
        ensures request { result ≡ option_map (λ found. found.request)
            (choice_among receive.now.table self.old.requests) }
        ensures requests { self.new.requests ≡ left_by self.old.requests
            (choice_among receive.now.table self.old.requests) }
        ensures openers { self.new.openers ≡ self.old.openers }
    {
        for place in 0..self.requests.len() {
            if is_next(&self.requests[place], receive) {
                return Some(self.requests.remove(place));
            }
        }
        None
    }

    /// Whether a request stands Next.
    pub fn wakes(&self, receive: &Receive) -> bool
        requires { length receive.now.depths ≡ self.now.openers }
        ensures { IsTrue result ↔ IsSome (choice_among receive.now.table self.now.requests) }
    {
        for request in &self.requests {
            if is_next(request, receive) {
                return true;
            }
        }
        false
    }

    /// Takes out the first request that stands Kept and gives the kept reply; each one before it that stands InHand or
    /// Old goes too. Where none stands Kept, all that stand InHand or Old go.
    pub fn settle(&mut self, receive: &Receive) -> Option<Reply>
        requires { length receive.now.depths ≡ self.old.openers }
        ensures reply { result ≡ (settlement_of receive.now.table self.old.requests).reply }
        ensures requests { self.new.requests ≡ (settlement_of receive.now.table self.old.requests).rest }
        ensures openers { self.new.openers ≡ self.old.openers }
    {
        let mut place = 0;
        while place < self.requests.len() {
            match standing(&self.requests[place], receive) {
                RequestStanding::Next | RequestStanding::Ahead => place += 1,
                RequestStanding::InHand | RequestStanding::Old => {
                    let _dropped = self.requests.remove(place);
                }
                RequestStanding::Kept(words) => {
                    let request = self.requests.remove(place);
                    return Some(reply_to(&request, words));
                }
            }
        }
        None
    }
}

/// How a request stands to a receive table.
fn standing(request: &Request, receive: &Receive) -> RequestStanding
    requires { request.now.opener < length receive.now.depths }
    ensures { result ≡ request_standing receive.now.table request.now }
{
    receive.standing(request.opener, request.number)
}

/// Whether a request stands Next.
fn is_next(request: &Request, receive: &Receive) -> bool
    requires { request.now.opener < length receive.now.depths }
    ensures { result ≡ is_next (request_standing receive.now.table request.now) }
{
    match standing(request, receive) {
        RequestStanding::Next => true,
        _ => false,
    }
}

/// Whether a request of the same opener waits whose number is as great.
fn is_outdone(request: &Request, waiting: &[Request]) -> bool
    ensures { result ≡ is_outdone request.now waiting.now }
{
    waiting.iter().any(|other| request.opener == other.opener && request.number <= other.number)
}

/// Takes out the requests of the same opener.
fn take_out(waiting: &mut Vec<Request>, request: &Request)
    ensures items { waiting.new.items ≡ filter (λ other. not (is_same_opener request.now other)) waiting.old.items }
    ensures room { vec_capacity waiting.new ≡ vec_capacity waiting.old }
{
    let opener = request.opener;
    waiting.retain(|other| opener != other.opener);
}

/// The reply of these words to a request.
fn reply_to(request: &Request, words: Words) -> Reply
    ensures { result ≡ reply_to request.now words }
{
    Reply {
        process: request.process,
        opener: request.opener,
        number: request.number,
        words,
    }
}
