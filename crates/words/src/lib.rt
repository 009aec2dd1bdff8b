// The words of 64 bits that cross the C boundary: the structs of include/cablesound.h, what words that come in stand for, and what each answer of
// the library is in words.
#![tactic(auto)]

ghost use Rattle.std.specs.Prelude.{◌≡◌};
ghost use Rattle.words.specs.Words.{low_bits, form_in, header_in, observation_in, header_words, observation_words, head_words, observed_words, written_words, found_words, reason_words, answer_words, phase_words, listed_words, record_in, record_words, adr_words};

use division::Next;
use macm::{Form, Header, Observation};
use novatel::{Corrected, Record};
use reason::Reason;
use refusal::Refusal;
use stream::Answer;
use track::Phase;

#[repr(C)]
#[derive(Clone, Copy, Debug, Default, PartialEq, Eq)]
pub struct HeaderWords {
    pub form: u64,
    pub version: u64,
    pub signal: u64,
    pub tfom: u64,
    pub time: u64,
    pub offset: u64,
}

#[repr(C)]
#[derive(Clone, Copy, Debug, Default, PartialEq, Eq)]
pub struct ObservationWords {
    pub sid: u64,
    pub condition: u64,
    pub cn0: u64,
    pub phase: u64,
    pub pseudorange: u64,
    pub rate: i64,
    pub lock: u64,
}

#[repr(C)]
#[derive(Clone, Copy, Debug, Default, PartialEq, Eq)]
pub struct HeadWords {
    pub refusal: u64,
    pub count: u64,
    pub header: HeaderWords,
}

#[repr(C)]
#[derive(Clone, Copy, Debug, Default, PartialEq, Eq)]
pub struct ObservedWords {
    pub refusal: u64,
    pub observation: ObservationWords,
}

#[repr(C)]
#[derive(Clone, Copy, Debug, Default, PartialEq, Eq)]
pub struct WrittenWords {
    pub refusal: u64,
    pub length: u64,
}

#[repr(C)]
#[derive(Clone, Copy, Debug, Default, PartialEq, Eq)]
pub struct FoundWords {
    pub refusal: u64,
    pub kind: u64,
    pub position: u64,
    pub length: u64,
    pub gap: u64,
}

#[repr(C)]
#[derive(Clone, Copy, Debug, Default, PartialEq, Eq)]
pub struct ReasonWords {
    pub refusal: u64,
    pub kind: u64,
    pub value: u64,
}

#[repr(C)]
#[derive(Clone, Copy, Debug, Default, PartialEq, Eq)]
pub struct AnswerWords {
    pub refusal: u64,
    pub kind: u64,
    pub length: u64,
    pub gap: u64,
    pub taken: u64,
}

#[repr(C)]
#[derive(Clone, Copy, Debug, Default, PartialEq)]
pub struct PhaseWords {
    pub kind: u64,
    pub code: u64,
    pub cycles: f64,
}

#[repr(C)]
#[derive(Clone, Copy, Debug, Default, PartialEq, Eq)]
pub struct ListedWords {
    pub refusal: u64,
    pub count: u64,
}

#[repr(C)]
#[derive(Clone, Copy, Debug, Default, PartialEq, Eq)]
pub struct RecordWords {
    pub refusal: u64,
    pub status: u64,
    pub doppler: i64,
    pub range: u64,
    pub adr: i64,
    pub range_deviation: u64,
    pub adr_deviation: u64,
    pub prn: u64,
    pub lock: u64,
    pub cn0: u64,
    pub reserved: u64,
}

#[repr(C)]
#[derive(Clone, Copy, Debug, Default, PartialEq, Eq)]
pub struct AdrWords {
    pub refusal: u64,
    pub rolls: i64,
    pub adr: i64,
}

// ---- words in: of each the low bits that its field holds

// The low 32 bits of a signed word.
#[tactic(auto, using(crate::proofs::Low::low_cast))]
fn low_bits(rate: i64) -> u32
    ensures { result ≡ low_bits rate }
{
    (rate.cast_unsigned() % 4294967296) as u32
}

// 1 is the old form, anything else the new one.
impl From<HeaderWords> for Form {
    ghost from_gives = { λ words form. form ≡ form_in words.form words.version words.signal words.tfom };

    fn from(words: HeaderWords) -> Form {
        if words.form == 1 {
            Form::Old {
                version: (words.version % 256) as u8,
            }
        } else {
            Form::New {
                signal: (words.signal % 256) as u8,
                tfom: (words.tfom % 256) as u8,
            }
        }
    }
}

impl From<HeaderWords> for Header {
    ghost from_gives = { λ words header. header ≡ header_in words };

    fn from(words: HeaderWords) -> Header {
        Header {
            form: words.into(),
            time: (words.time % 4294967296) as u32,
            offset: (words.offset % 4294967296) as u32,
        }
    }
}

impl From<ObservationWords> for Observation {
    ghost from_gives = { λ words observation. observation ≡ observation_in words };

    #[tactic(auto, using(octets::proofs::Signed::signed_cast))]
    fn from(words: ObservationWords) -> Observation {
        Observation {
            sid: (words.sid % 256) as u8,
            condition: (words.condition % 65536) as u16,
            cn0: (words.cn0 % 256) as u8,
            phase: words.phase,
            pseudorange: (words.pseudorange % 4294967296) as u32,
            rate: low_bits(words.rate).cast_signed(),
            lock: units::LockCount::from_count((words.lock % 4294967296) as u32),
        }
    }
}

// All of them as they are, but for the refusal: what a field cannot hold is refused in writing.
impl From<RecordWords> for Record {
    ghost from_gives = { λ words fields. fields ≡ record_in words };

    fn from(words: RecordWords) -> Record {
        Record {
            status: words.status,
            doppler: words.doppler,
            range: words.range,
            adr: words.adr,
            range_deviation: words.range_deviation,
            adr_deviation: words.adr_deviation,
            prn: words.prn,
            lock: words.lock,
            cn0: words.cn0,
            reserved: words.reserved,
        }
    }
}

// ---- words out: where a call refuses, every word but the refusal is 0

impl From<Header> for HeaderWords {
    ghost from_gives = { λ header words. words ≡ header_words header };

    fn from(header: Header) -> HeaderWords {
        let words = HeaderWords {
            time: header.time as u64,
            offset: header.offset as u64,
            ..HeaderWords::default()
        };
        match header.form {
            Form::New { signal, tfom } => HeaderWords {
                form: 2,
                signal: signal as u64,
                tfom: tfom as u64,
                ..words
            },
            Form::Old { version } => HeaderWords {
                form: 1,
                version: version as u64,
                ..words
            },
        }
    }
}

impl From<Observation> for ObservationWords {
    ghost from_gives = { λ observation words. words ≡ observation_words observation };

    fn from(observation: Observation) -> ObservationWords {
        ObservationWords {
            sid: observation.sid as u64,
            condition: observation.condition as u64,
            cn0: observation.cn0 as u64,
            phase: observation.phase,
            pseudorange: observation.pseudorange as u64,
            rate: observation.rate as i64,
            lock: observation.lock.count() as u64,
        }
    }
}

impl From<Result<(Header, u8), Refusal>> for HeadWords {
    ghost from_gives = { λ head words. words ≡ head_words head };

    fn from(head: Result<(Header, u8), Refusal>) -> HeadWords {
        match head {
            Err(refusal) => HeadWords {
                refusal: refusal::number(refusal),
                ..HeadWords::default()
            },
            Ok((header, count)) => HeadWords {
                refusal: 0,
                count: count as u64,
                header: header.into(),
            },
        }
    }
}

impl From<Result<Observation, Refusal>> for ObservedWords {
    ghost from_gives = { λ observed words. words ≡ observed_words observed };

    fn from(observed: Result<Observation, Refusal>) -> ObservedWords {
        match observed {
            Err(refusal) => ObservedWords {
                refusal: refusal::number(refusal),
                ..ObservedWords::default()
            },
            Ok(observation) => ObservedWords {
                refusal: 0,
                observation: observation.into(),
            },
        }
    }
}

impl From<Result<usize, Refusal>> for WrittenWords {
    ghost from_gives = { λ written words. words ≡ written_words written };

    fn from(written: Result<usize, Refusal>) -> WrittenWords {
        match written {
            Err(refusal) => WrittenWords {
                refusal: refusal::number(refusal),
                ..WrittenWords::default()
            },
            Ok(length) => WrittenWords {
                refusal: 0,
                length: length as u64,
            },
        }
    }
}

// Apart from WrittenWords, since the header calls the number by another name.
impl From<Result<usize, Refusal>> for ListedWords {
    ghost from_gives = { λ listed words. words ≡ listed_words listed };

    fn from(listed: Result<usize, Refusal>) -> ListedWords {
        match listed {
            Err(refusal) => ListedWords {
                refusal: refusal::number(refusal),
                ..ListedWords::default()
            },
            Ok(count) => ListedWords {
                refusal: 0,
                count: count as u64,
            },
        }
    }
}

impl From<Result<Next, Refusal>> for FoundWords {
    ghost from_gives = { λ next words. words ≡ found_words next };

    fn from(next: Result<Next, Refusal>) -> FoundWords {
        match next {
            Err(refusal) => FoundWords {
                refusal: refusal::number(refusal),
                ..FoundWords::default()
            },
            Ok(
                Next::Message {
                    position,
                    length,
                    gap,
                },
            ) => FoundWords {
                refusal: 0,
                kind: 1,
                position: position as u64,
                length: length as u64,
                gap: gap as u64,
            },
            Ok(Next::End { gap }) => FoundWords {
                kind: 2,
                gap: gap as u64,
                ..FoundWords::default()
            },
        }
    }
}

impl From<Result<Reason, Refusal>> for ReasonWords {
    ghost from_gives = { λ reason words. words ≡ reason_words reason };

    fn from(reason: Result<Reason, Refusal>) -> ReasonWords {
        let (refusal, kind, value) = match reason {
            Err(refusal) => (refusal::number(refusal), 0, 0),
            Ok(Reason::Inside(start)) => (0, 1, start as u64),
            Ok(Reason::Given(length)) => (0, 2, length as u64),
            Ok(Reason::Sync(byte)) => (0, 3, byte as u64),
            Ok(Reason::CutUnknown) => (0, 4, 0),
            Ok(Reason::CutShort(missing)) => (0, 5, missing as u64),
            Ok(Reason::Checksum(residue)) => (0, 6, residue as u64),
        };
        ReasonWords {
            refusal,
            kind,
            value,
        }
    }
}

// All of the bytes offered are taken where more is needed. No From: of a pair it would not say that the number is what was offered.
pub fn answer_words(reply: stream::Reply, offered: u64) -> AnswerWords
    ensures { result ≡ answer_words reply.answer offered }
{
    match reply.answer {
        Err(refusal) => AnswerWords {
            refusal: refusal::number(refusal),
            ..AnswerWords::default()
        },
        Ok(Answer::NeedsMore) => AnswerWords {
            kind: 0,
            taken: offered,
            ..AnswerWords::default()
        },
        Ok(Answer::Message { length, gap, taken }) => AnswerWords {
            refusal: 0,
            kind: 1,
            length,
            gap,
            taken,
        },
        Ok(Answer::End { gap }) => AnswerWords {
            kind: 2,
            gap,
            ..AnswerWords::default()
        },
    }
}

impl From<Phase> for PhaseWords {
    ghost from_gives = { λ phase words. words ≡ phase_words phase };

    fn from(phase: Phase) -> PhaseWords {
        let (kind, code, cycles) = match phase {
            Phase::Withheld => (0, 0, 0.0),
            Phase::NotFinite => (1, 0, 0.0),
            Phase::PolarityUnknown(cycles) => (2, 0, cycles),
            Phase::NotCorrected(cycles) => (3, 5, cycles),
            Phase::DueHalf(cycles) => (4, 7, cycles),
            Phase::PolarityUndefined(code, cycles) => (5, code as u64, cycles),
        };
        PhaseWords { kind, code, cycles }
    }
}

impl From<Result<Record, Refusal>> for RecordWords {
    ghost from_gives = { λ reading words. words ≡ record_words reading };

    fn from(reading: Result<Record, Refusal>) -> RecordWords {
        match reading {
            Err(refusal) => RecordWords {
                refusal: refusal::number(refusal),
                ..RecordWords::default()
            },
            Ok(record) => RecordWords {
                refusal: 0,
                status: record.status,
                doppler: record.doppler,
                range: record.range,
                adr: record.adr,
                range_deviation: record.range_deviation,
                adr_deviation: record.adr_deviation,
                prn: record.prn,
                lock: record.lock,
                cn0: record.cn0,
                reserved: record.reserved,
            },
        }
    }
}

impl From<Result<Corrected, Refusal>> for AdrWords {
    ghost from_gives = { λ correction words. words ≡ adr_words correction };

    fn from(correction: Result<Corrected, Refusal>) -> AdrWords {
        match correction {
            Err(refusal) => AdrWords {
                refusal: refusal::number(refusal),
                ..AdrWords::default()
            },
            Ok(Corrected { rolls, adr }) => AdrWords {
                refusal: 0,
                rolls,
                adr,
            },
        }
    }
}
