//! What calls leave, in lines. Where no memory is found, pieces are missing, and the comparison fails.

use super::call::Call;
use sal_ast::Program;
use sal_handler::{Began, Outcome, Turn};
use sal_mail::{
    Actor, Answer, Creation, Effects, FaultKind, Join, MIGRATE, Message, OUTPUT, Piece, Reply,
    Target, Trap,
};
use sal_value::{Name, Text, Value};
use sal_walk::{begin, find_handler, fits_call, fits_state, handle};
use std::alloc::Global;

/// The number of the first new actor's name.
const FRESH: u64 = 6;

/// The most things of a kind that are told one by one; of more only the last one is.
const MOST_TOLD: usize = 8;

/// A text that grows.
#[derive(Drop)]
pub struct Transcript {
    alloc: Global,
    text: Text,
}

/// Those that are told.
fn told<T>(items: &[T]) -> &[T] {
    if items.len() > MOST_TOLD {
        &items[items.len() - 1..]
    } else {
        items
    }
}

impl Transcript {
    pub fn new(alloc: Global) -> Transcript {
        Transcript {
            alloc,
            text: Text::new(alloc),
        }
    }

    pub fn into_text(self) -> Text {
        self.text
    }

    pub fn put(&mut self, more: &str) {
        let _ = self.text.push_str(more);
    }

    /// What stands before an item of a list.
    fn put_between(&mut self, is_first: bool) {
        if !is_first {
            self.put(" ");
        }
    }

    fn put_number(&mut self, number: u64) {
        if let Ok(text) = number.to_string(self.alloc) {
            self.put(text.as_str());
        }
    }

    fn put_int(&mut self, number: i32) {
        if let Ok(text) = number.to_string(self.alloc) {
            self.put(text.as_str());
        }
    }

    fn put_name(&mut self, name: &Name) {
        if let Ok(text) = name.text(self.alloc) {
            self.put(text.as_str());
        }
    }

    fn put_value(&mut self, value: &Value) {
        match value {
            Value::Int(number) => self.put_int(*number),
            Value::Bool(true) => self.put("true"),
            Value::Bool(false) => self.put("false"),
            Value::Str(text) => {
                self.put("\"");
                self.put(text.as_str());
                self.put("\"");
            }
            Value::Array(items) => {
                self.put("[");
                let mut is_first = true;
                for item in items.as_slice() {
                    self.put_between(is_first);
                    self.put_value(item);
                    is_first = false;
                }
                self.put("]");
            }
            Value::Ref(name) => self.put_name(name),
            Value::Null => self.put("null"),
        }
    }

    fn put_values(&mut self, values: &[Value]) {
        let mut is_first = true;
        for value in values {
            self.put_between(is_first);
            self.put_value(value);
            is_first = false;
        }
    }

    fn put_serials(&mut self, before: &str, serials: &[u64]) {
        let mut is_first = true;
        for serial in serials {
            if is_first {
                self.put(before);
            } else {
                self.put(" ");
            }
            self.put_number(*serial);
            is_first = false;
        }
    }

    fn put_piece(&mut self, piece: &Piece) {
        match piece {
            Piece::Known(value) => self.put_value(value),
            Piece::Token(number) => {
                self.put("#");
                self.put_number(*number);
            }
        }
    }

    fn put_pieces(&mut self, pieces: &[Piece]) {
        let mut is_first = true;
        for piece in pieces {
            self.put_between(is_first);
            self.put_piece(piece);
            is_first = false;
        }
    }

    fn put_reply(&mut self, reply: &Reply) {
        match reply {
            Reply::Nobody => {}
            Reply::Tok(maker, number) => self.put_owner(" reply tok ", maker, &[*number]),
            Reply::Place(maker, join, at) => {
                self.put_owner(" reply slot ", maker, &[*join, u64::from(*at)]);
            }
            Reply::Outside(number) => self.put_serials(" reply outside ", &[*number]),
        }
    }

    fn put_owner(&mut self, kind: &str, maker: &Name, numbers: &[u64]) {
        self.put(kind);
        self.put_name(maker);
        self.put_serials(" ", numbers);
    }

    /// A handler's or a new actor's behaviour is told by its number.
    fn put_handler(&mut self, behavior: u16, handler: u16) {
        self.put(" ");
        self.put_number(u64::from(behavior));
        self.put(".");
        self.put_number(u64::from(handler));
    }

    fn put_target(&mut self, target: &Target) {
        match target {
            Target::Actor(name) => self.put_name(name),
            Target::Output => self.put("output"),
        }
    }

    fn put_message(&mut self, message: &Message, me: &Name) {
        self.put_serials("= message ", &[message.serial]);
        if !message.maker.is(me) {
            self.put(" by ");
            self.put_name(&message.maker);
        }
        self.put(" to ");
        self.put_target(&message.target);
        self.put_handler(message.behavior, message.handler);
        self.put(" (");
        self.put_pieces(message.args.as_slice());
        self.put(")");
        self.put_serials(" after ", message.after.as_slice());
        if message.delay != 0 {
            self.put_serials(" delay ", &[u64::from(message.delay)]);
        }
        self.put_reply(&message.reply);
        self.put("\n");
    }

    fn put_join(&mut self, join: &Join) {
        self.put_serials("= join ", &[join.number]);
        self.put_serials(" slots ", &[join.places.len() as u64]);
        for place in join.places.as_slice() {
            if let Some(value) = place {
                self.put(" with ");
                self.put_value(value);
            }
        }
        if join.void {
            self.put(" void");
        }
        self.put_reply(&join.reply);
        self.put("\n");
    }

    /// A new actor's behaviour and fields.
    fn put_state(&mut self, behavior: u16, fields: &[Value]) {
        self.put_serials(" ", &[u64::from(behavior)]);
        self.put(" (");
        self.put_values(fields);
        self.put(")");
    }

    fn put_actor(&mut self, actor: &Actor) {
        self.put("= actor ");
        self.put_name(&actor.name);
        self.put_state(actor.behavior, actor.fields.as_slice());
        self.put("\n");
    }

    fn put_creation(&mut self, creation: &Creation) {
        self.put_serials("= creation ", &[creation.serial]);
        self.put(" ");
        if let Ok(text) = creation.name.text(self.alloc) {
            self.put(text.as_str());
        }
        self.put_state(creation.behavior, creation.fields.as_slice());
        if let Some(place) = &creation.place {
            self.put(" at ");
            if let Ok(text) = place.text(self.alloc) {
                self.put(text.as_str());
            }
        }
        self.put("\n");
    }

    fn put_count(&mut self, count: usize, kind: &str) {
        if count > MOST_TOLD {
            self.put_serials("= ", &[count as u64]);
            self.put(kind);
        }
    }

    fn put_answer(&mut self, answer: &Answer) {
        match answer {
            Answer::Value(value) => {
                self.put("= answer ");
                self.put_value(value);
                self.put("\n");
            }
            Answer::Passed => self.put("= passed\n"),
        }
    }

    fn put_fields(&mut self, fields: &[Value]) {
        if !fields.is_empty() {
            self.put("= fields ");
            self.put_values(fields);
            self.put("\n");
        }
    }

    /// What the handler sends and opens.
    fn put_sent(&mut self, effects: &Effects, me: &Name) {
        self.put_count(effects.messages.len(), " messages\n");
        for message in told(effects.messages.as_slice()) {
            self.put_message(message, me);
        }
        self.put_count(effects.joins.len(), " joins\n");
        for join in told(effects.joins.as_slice()) {
            self.put_join(join);
        }
    }

    /// What the handler makes.
    fn put_made(&mut self, effects: &Effects) {
        self.put_count(effects.actors.len(), " actors\n");
        for actor in told(effects.actors.as_slice()) {
            self.put_actor(actor);
        }
        self.put_count(effects.creations.len(), " creations\n");
        for creation in told(effects.creations.as_slice()) {
            self.put_creation(creation);
        }
    }

    /// The next numbers, where they aren't those of the call.
    fn put_next(&mut self, effects: &Effects, serial: u64) {
        if effects.serial != serial || effects.fresh != FRESH {
            self.put_serials("= next ", &[effects.serial, effects.fresh]);
            self.put("\n");
        }
    }

    fn put_trap(&mut self, trap: Trap) {
        self.put("= trap ");
        self.put(FaultKind::Trap(trap).text());
        self.put("\n");
    }

    fn put_outcome(&mut self, outcome: &Outcome, call: &Call) {
        match outcome {
            Outcome::Trap(trap) => self.put_trap(*trap),
            Outcome::Done(effects) => {
                self.put_answer(&effects.answer);
                self.put_fields(effects.fields.as_slice());
                self.put_sent(effects, &call.me);
                self.put_made(effects);
                self.put_next(effects, call.serial);
            }
        }
    }

    fn put_began(&mut self, program: &Program) {
        match begin(self.alloc, program) {
            Ok(Began::Trap(trap)) => self.put_trap(trap),
            Ok(
                Began::Actor {
                    behavior,
                    handler,
                    fields,
                },
            ) => {
                self.put("= begins");
                self.put_handler(behavior, handler);
                self.put(" (");
                self.put_values(fields.as_slice());
                self.put(")\n");
            }
            Err(_) => {}
        }
    }

    /// Calls a handler of the program's first behaviour, or `migrate`. `of` is the behaviour that a call's
    /// handler is of.
    fn put_call(&mut self, program: &Program, of: u16, handler: u16, call: &Call) {
        let turn = Turn {
            me: &call.me,
            behavior: 0,
            fields: &call.fields,
            handler,
            args: &call.args,
            reply: &call.reply,
            serial: call.serial,
            place: 0,
            fresh: FRESH,
        };
        if !fits_call(program, of, handler, call.args.as_slice()) {
            self.put("= unfit arguments\n");
        }
        if !fits_state(program, 0, call.fields.as_slice()) {
            self.put("= unfit fields\n");
        }
        if let Ok(outcome) = handle(self.alloc, program, &turn) {
            self.put_outcome(&outcome, call);
        }
    }

    /// What the line `? name words` leaves.
    fn put_line(&mut self, program: &Program, name: &str, words: &str) {
        let call = Call::read(self.alloc, words);
        if name == "begin" {
            self.put_began(program);
        } else if name == "migrate" {
            self.put_call(program, OUTPUT, MIGRATE, &call);
        } else if let Some((behavior, handler)) = find_handler(program, b"A", name.as_bytes()) {
            self.put_call(program, behavior, handler, &call);
        } else {
            self.put("= no handler\n");
        }
    }

    /// The row, with what its calls leave in place of what it tells.
    pub fn put_row(&mut self, program: &Program, row: &str) {
        for line in row.lines() {
            if line.starts_with("=") {
                continue;
            }
            self.put(line);
            self.put("\n");
            if let Some(call) = line.strip_prefix("? ") {
                match call.split_once(' ') {
                    Some((name, words)) => self.put_line(program, name, words),
                    None => self.put_line(program, call, ""),
                }
            }
        }
    }
}
