// What the archive for C and Rust exports: each function calls its own of `pulseq`, and promises the same.
#![tactic(auto)]

ghost use Rattle.pulseq.specs.Exports.{ReadTold, ExpandTold, WriteTold, RestateTold, DefinitionTold, StoredTold};

// Reads a file with a site's definitions into lent tables, and tells the number, the line, and how many rows and samples are used.
#[unsafe(no_mangle)]
pub extern "C" fn pulseq_read<'a>(
    file: &'a [u8],
    site: &'a [u8],
    rows: &mut [i64],
    samples: &mut [i64],
    answer: &mut [u64],
)
    ensures { ReadTold file.now site.now rows.old samples.old answer.old rows.new samples.new answer.new }
{
    pulseq::pulseq_read(file, site, rows, samples, answer)
}

// Expands stored lines into lent samples, and tells the number and how many samples are used.
#[unsafe(no_mangle)]
pub extern "C" fn pulseq_expand(
    stored: &[u8],
    num: u64,
    edition: u64,
    samples: &mut [i64],
    answer: &mut [u64],
)
    ensures { ExpandTold stored.now num edition samples.old answer.old samples.new answer.new }
{
    pulseq::pulseq_expand(stored, num, edition, samples, answer)
}

// Writes samples as stored lines into a lent output, and tells the number and how long the text is.
#[unsafe(no_mangle)]
pub extern "C" fn pulseq_write(samples: &[i64], edition: u64, out: &mut [u8], answer: &mut [u64])
    ensures { WriteTold samples.now edition out.old answer.old out.new answer.new }
{
    pulseq::pulseq_write(samples, edition, out, answer)
}

// Restates a file with a site's definitions to a target, reading it into lent tables and writing its text into a lent output, and tells the number, the
// line, how many rows and samples are used, and how long the text is.
#[unsafe(no_mangle)]
pub extern "C" fn pulseq_restate<'a>(
    file: &'a [u8],
    site: &'a [u8],
    target: u64,
    rows: &mut [i64],
    samples: &mut [i64],
    out: &mut [u8],
    answer: &mut [u64],
)
    ensures { RestateTold file.now site.now target rows.old samples.old out.old answer.old rows.new samples.new out.new answer.new }
{
    pulseq::pulseq_restate(file, site, target, rows, samples, out, answer)
}

// Finds where the value of a key stands in the file or the site's definitions, and tells which of the two, the place and the length.
#[unsafe(no_mangle)]
pub extern "C" fn pulseq_definition(file: &[u8], site: &[u8], key: &[u8], answer: &mut [u64])
    ensures { DefinitionTold file.now site.now key.now answer.old answer.new }
{
    pulseq::pulseq_definition(file, site, key, answer)
}

// Finds where the stored lines of a shape stand in the file, and tells 1, the place and the length, or zeros.
#[unsafe(no_mangle)]
pub extern "C" fn pulseq_stored(file: &[u8], site: &[u8], id: i64, answer: &mut [u64])
    ensures { StoredTold file.now site.now id answer.old answer.new }
{
    pulseq::pulseq_stored(file, site, id, answer)
}
