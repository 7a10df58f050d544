//! `cap_words` and `cap_pack`.

use crate::no_words::NoWords;
use crate::same::same;
use cap_pack::{Packer, Unpacker};
use cap_words::{
    ByteIn, ByteOut, FromRead, FromWrite, InFault, OutFault, PlainSink, PlainWords, SinkFault,
    SliceIn, SourceFault, VecOut, WordSink, WordSource, bits, bytes_of, signed_offset, word_of,
};
use test_support::{HONEST, Reader, Writer};

fn in_fault(fault: InFault) -> u8 {
    match fault {
        InFault::Device => 1,
        InFault::Spent => 2,
    }
}

fn out_fault(fault: OutFault) -> u8 {
    match fault {
        OutFault::Device => 1,
        OutFault::Memory => 2,
        OutFault::Spent => 3,
    }
}

fn source_fault(fault: SourceFault) -> u64 {
    match fault {
        SourceFault::Truncated { byte } => byte,
        SourceFault::Device => 1,
        SourceFault::Spent => 2,
    }
}

fn sink_fault(fault: SinkFault) -> u8 {
    match fault {
        SinkFault::Device => 1,
        SinkFault::Memory => 2,
        SinkFault::Spent => 3,
    }
}

#[test]
fn fields_of_a_word(rt: HostRuntime) {
    let field: u64 = bits(0x0700_0000_0000_0000, 56, 8);
    let offset: i64 = signed_offset(0xffff_fffc);
    let bytes: [u8; 8] = bytes_of(513);
    let word: u64 = word_of(&bytes);
    same(&rt, (field, offset, word), (7, -1, 513));
}

#[test]
fn faults_of_words(rt: HostRuntime) {
    let numbers = (
        in_fault(InFault::Spent),
        out_fault(OutFault::Spent),
        source_fault(SourceFault::Truncated { byte: 9 }),
        sink_fault(SinkFault::Spent),
    );
    same(&rt, numbers, (2, 3, 9, 3));
}

// The next word of any source, and its position then.
fn next_of<S: WordSource>(source: &mut S) -> (Result<Option<u64>, SourceFault>, u64) {
    let word = source.next();
    (word, source.position())
}

// A word that is put to any sink, and the end.
fn put_to<K: WordSink>(sink: &mut K) -> (Result<(), SinkFault>, Result<(), SinkFault>) {
    let put = sink.put(1);
    (put, sink.finish())
}

#[test]
fn inputs_and_sources(rt: HostRuntime) {
    let mut input: SliceIn<'_> = SliceIn::new(&[1, 0, 0, 0, 0, 0, 0, 0, 1]);
    let read: Result<usize, InFault> = input.read(&mut [0]);
    let mut source: PlainWords<SliceIn<'_>> = PlainWords::new(input);
    same(
        &rt,
        (read, next_of(&mut source)),
        (Ok(1), (Ok(Some(1 << 56)), 8)),
    );
    let _input: SliceIn<'_> = source.into_inner();
    let mut source: Unpacker<SliceIn<'_>> = Unpacker::new(SliceIn::new(&[1, 7]));
    same(&rt, next_of(&mut source), (Ok(Some(7)), 2));
    let _input: SliceIn<'_> = source.into_inner();
    let reader: FromRead<Reader<'_>> = FromRead::new(Reader::honest(&[], 1));
    let _reader: Reader<'_> = reader.into_inner();
    same(&rt, next_of(&mut NoWords), (Ok(None), 0));
}

#[test]
fn outputs_and_sinks(rt: HostRuntime) {
    let mut output: VecOut = VecOut::new(rt.alloc());
    let written: Result<usize, OutFault> = output.write(&[5]);
    let mut sink: PlainSink<VecOut> = PlainSink::new(output);
    same(&rt, (written, put_to(&mut sink)), (Ok(1), (Ok(()), Ok(()))));
    let output: VecOut = sink.into_inner();
    same(&rt, output.bytes(), [5, 1, 0, 0, 0, 0, 0, 0, 0].as_slice());
    let mut sink: Packer<VecOut> = Packer::new(VecOut::new(rt.alloc()));
    same(&rt, put_to(&mut sink), (Ok(()), Ok(())));
    let output: VecOut = sink.into_inner();
    same(&rt, output.bytes(), [1, 1].as_slice());
    let writer: FromWrite<Writer> = FromWrite::new(Writer::new(rt.alloc(), 1, HONEST));
    let _writer: Writer = writer.into_inner();
}
