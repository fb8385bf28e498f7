#![tactic(auto)]

// The library's functions as C calls them: each states the contract of the function of the same name in nodhulika, which it calls.
ghost use Rattle.std.specs.Prelude.{◌≡◌, []};
ghost use Rattle.paper.specs.Journal as journal;
ghost use Rattle.front.specs.Front.{held_in, check_number, centre_for};
ghost use Rattle.lent.specs.Lent.{lent_file, lent_call, lent_read};
ghost use Rattle.nodhulika.specs.Exported.{centre_into, equipment_into, placard_into};

// A fresh record at the front of the buffer.
#[unsafe(no_mangle)]
pub extern "C" fn nodhulika_fresh(buffer: &mut [u8]) -> u64
    ensures { (result, buffer.new) ≡ lent_file [] buffer.old }
{
    nodhulika::nodhulika_fresh(buffer)
}

// Whether the buffer holds a record.
#[unsafe(no_mangle)]
pub extern "C" fn nodhulika_check(buffer: &[u8]) -> u64
    ensures { result ≡ check_number buffer.now }
{
    nodhulika::nodhulika_check(buffer)
}

// A weighing.
#[unsafe(no_mangle)]
pub extern "C" fn nodhulika_weigh(
    buffer: &mut [u8],
    m: u64,
    p: u64,
    q: u64,
    a: i64,
    b: u64,
    n: u64,
) -> u64
    ensures { (result, buffer.new) ≡ lent_call (journal.weigh (record { m = m; p = p; q = q; a = a; b = b; n = n })) buffer.old }
{
    nodhulika::nodhulika_weigh(buffer, m, p, q, a, b, n)
}

// A paired weighing.
#[unsafe(no_mangle)]
pub extern "C" fn nodhulika_weigh_paired(
    buffer: &mut [u8],
    m: u64,
    p: u64,
    q: u64,
    p2: u64,
    q2: u64,
    a: i64,
    b: u64,
    n: u64,
) -> u64
    ensures { (result, buffer.new) ≡ lent_call (journal.pair (record { m = m; p = p; q = q; p2 = p2; q2 = q2; a = a; b = b; n = n })) buffer.old }
{
    nodhulika::nodhulika_weigh_paired(buffer, m, p, q, p2, q2, a, b, n)
}

// A paired weighing as an indicator sends it: each reading's nine bytes, and its cell's rated kilograms and zero.
#[unsafe(no_mangle)]
pub extern "C" fn nodhulika_weigh_indicated(
    buffer: &mut [u8],
    m: u64,
    p: &[u8],
    p_rated: f64,
    p_zero: f64,
    q: &[u8],
    q_rated: f64,
    q_zero: f64,
    p2: &[u8],
    p2_rated: f64,
    p2_zero: f64,
    q2: &[u8],
    q2_rated: f64,
    q2_zero: f64,
    a: i64,
    b: u64,
    n: u64,
) -> u64
    ensures { (result, buffer.new) ≡ lent_call (journal.indicate (record { m = m; p = record { bytes = p.now; cell = record { rated = p_rated; zero = p_zero } }; q = record { bytes = q.now; cell = record { rated = q_rated; zero = q_zero } }; p2 = record { bytes = p2.now; cell = record { rated = p2_rated; zero = p2_zero } }; q2 = record { bytes = q2.now; cell = record { rated = q2_rated; zero = q2_zero } }; a = a; b = b; n = n })) buffer.old }
{
    nodhulika::nodhulika_weigh_indicated(
        buffer, m, p, p_rated, p_zero, q, q_rated, q_zero, p2, p2_rated, p2_zero, q2, q2_rated,
        q2_zero, a, b, n,
    )
}

// A data sheet.
#[unsafe(no_mangle)]
pub extern "C" fn nodhulika_sheet(
    buffer: &mut [u8],
    fwd: i64,
    aft: i64,
    dry: u64,
    wet: u64,
    nlp: u64,
    front_arm: i64,
    front_least: u64,
    front_most: u64,
    front_step: u64,
    rear_arm: i64,
    rear_most: u64,
    rear_step: u64,
    water_arm: i64,
    water_most: u64,
    water_step: u64,
) -> u64
    ensures { (result, buffer.new) ≡ lent_call (journal.install (record { fwd = fwd; aft = aft; dry = dry; wet = wet; nlp = nlp; front = record { arm = front_arm; most = front_most; step = front_step }; least = front_least; rear = record { arm = rear_arm; most = rear_most; step = rear_step }; water = record { arm = water_arm; most = water_most; step = water_step } })) buffer.old }
{
    nodhulika::nodhulika_sheet(
        buffer,
        fwd,
        aft,
        dry,
        wet,
        nlp,
        front_arm,
        front_least,
        front_most,
        front_step,
        rear_arm,
        rear_most,
        rear_step,
        water_arm,
        water_most,
        water_step,
    )
}

// A change.
#[unsafe(no_mangle)]
pub extern "C" fn nodhulika_change(buffer: &mut [u8], c: i64, arm: i64, flag: u64) -> u64
    ensures { (result, buffer.new) ≡ lent_call (journal.change (record { c = c; arm = arm; flag = flag })) buffer.old }
{
    nodhulika::nodhulika_change(buffer, c, arm, flag)
}

// A seat entry.
#[unsafe(no_mangle)]
pub extern "C" fn nodhulika_seat(buffer: &mut [u8], lower: i64, higher: i64) -> u64
    ensures { (result, buffer.new) ≡ lent_call (journal.seat (record { lower = lower; higher = higher })) buffer.old }
{
    nodhulika::nodhulika_seat(buffer, lower, higher)
}

// Taking back.
#[unsafe(no_mangle)]
pub extern "C" fn nodhulika_undo(buffer: &mut [u8]) -> u64
    ensures { (result, buffer.new) ≡ lent_call journal.undo buffer.old }
{
    nodhulika::nodhulika_undo(buffer)
}

// Reading back: a file in the place of what the buffer holds.
#[unsafe(no_mangle)]
pub extern "C" fn nodhulika_read(buffer: &mut [u8], file: &[u8]) -> u64
    ensures { (result, buffer.new) ≡ lent_read file.now buffer.old }
{
    nodhulika::nodhulika_read(buffer, file)
}

// Total and moment, in half grams, and empty centre of gravity, into `answer`.
#[unsafe(no_mangle)]
pub extern "C" fn nodhulika_centre(buffer: &[u8], answer: &mut [u8]) -> u64
    ensures { (result, answer.new) ≡ centre_into (centre_for (held_in buffer.now)) answer.old }
{
    nodhulika::nodhulika_centre(buffer, answer)
}

// Equipment by station: the arms, the net weights and the net non-lifting weights there, and how many arms there are.
#[unsafe(no_mangle)]
pub extern "C" fn nodhulika_equipment(
    buffer: &[u8],
    arms: &mut [i64],
    weights: &mut [i64],
    nonlifting: &mut [i64],
    count: &mut u64,
) -> u64
    ensures { (result, arms.new, weights.new, nonlifting.new, count.new) ≡ equipment_into (held_in buffer.now) arms.old weights.old nonlifting.old count.old }
{
    nodhulika::nodhulika_equipment(buffer, arms, weights, nonlifting, count)
}

// The placard, into `out`, and its bytes, rows and blank rows, into `answer`.
#[unsafe(no_mangle)]
pub extern "C" fn nodhulika_placard(buffer: &[u8], out: &mut [u8], answer: &mut [u8]) -> u64
    ensures { (result, out.new, answer.new) ≡ placard_into (held_in buffer.now) out.old answer.old }
{
    nodhulika::nodhulika_placard(buffer, out, answer)
}
