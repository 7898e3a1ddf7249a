use patches::refusal::Refusal;
use runs::attempts::{AttemptError, Entry};

/// A name and numbers, on one line.
pub fn line(rt: &HostRuntime, name: &str, numbers: &[u64]) -> anyhow::Result<()> {
    println!(rt; "{name} {numbers:?}")?;
    Ok(())
}

/// A name, and whether something was accepted or why it was refused.
pub fn outcome(rt: &HostRuntime, name: &str, res: Result<(), Refusal>) -> anyhow::Result<()> {
    match res {
        Ok(()) => println!(rt; "{name}: accepted")?,
        Err(
            Refusal {
                reason,
                part,
                place,
            },
        ) => println!(rt; "{name}: {} {part} {place}", reason.number())?,
    }
    Ok(())
}

/// The outcomes of a list of attempts, on one line.
pub fn outcomes(rt: &HostRuntime, entries: &[Entry]) -> anyhow::Result<()> {
    for entry in entries {
        match entry.outcome {
            Ok(()) => print!(rt; " accepted")?,
            Err(AttemptError::NotMade) => print!(rt; " not-made")?,
            Err(
                AttemptError::Refused(
                    Refusal {
                        reason,
                        part,
                        place,
                    },
                ),
            ) => print!(rt; " {}/{part}/{place}", reason.number())?,
        }
    }
    println!(rt; "")?;
    Ok(())
}
