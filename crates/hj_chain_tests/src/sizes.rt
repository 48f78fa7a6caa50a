//! Sizes of runs on threads.
use hj_base::ChainSize;
use hj_crew::CrewSize;
use std::alloc::Global;
use std::process::Abort;

fn number(rt: &impl Abort, word: &str) -> u16 {
    word.parse::<u16>().expect(rt, "a number")
}

/// Makes the size of a run, of which each number is a word.
fn size_of(rt: &impl Abort, cores: &str, threads: &str, flight: &str) -> CrewSize {
    let (cores, threads, flight) = (number(rt, cores), number(rt, threads), number(rt, flight));
    assert!(rt; 1 <= cores && cores <= 64);
    assert!(rt; 1 <= flight && flight <= 256);
    assert!(rt; 1 <= threads);
    CrewSize {
        chain: ChainSize { cores, flight },
        threads,
    }
}

fn add_flights(
    rt: &impl Abort,
    sizes: &mut Vec<CrewSize>,
    cores: &str,
    threads: &str,
    flights: &str,
) {
    for flight in flights.split(' ') {
        let size = size_of(rt, cores, threads, flight);
        sizes.push(size).expect(rt, "memory");
    }
}

fn add_threads(
    rt: &impl Abort,
    sizes: &mut Vec<CrewSize>,
    cores: &str,
    threads: &str,
    flights: &str,
) {
    for threads in threads.split(' ') {
        add_flights(rt, sizes, cores, threads, flights);
    }
}

/// Makes each size of some cores, of some threads, and of some events under way at most; each is the words of a text.
pub(crate) fn sizes(
    rt: &impl Abort,
    alloc: Global,
    cores: &str,
    threads: &str,
    flights: &str,
) -> Vec<CrewSize> {
    let mut sizes = Vec::new(alloc);
    for cores in cores.split(' ') {
        add_threads(rt, &mut sizes, cores, threads, flights);
    }
    sizes
}
